// A plan that is open: the table of its nodes, and its names.
ghost use Rattle.std.specs.Prelude.{◌≡◌, [], ◌∷◌, length, IfOk, string_bytes};
ghost use Rattle.plan.specs.Plans.{room};
ghost use Rattle.answers.specs.Lines.{answer_line};
ghost use Rattle.answers.specs.Opened.{nodes_of, names_of, Opens};

use crate::line::answer;
use names::list::NameList;
use plan::fault::PlanFault;
use plan::read::read;
use std::alloc::{AllocError, Global};
use tree::slot::Slot;
use tree::table::Table;

#[derive(Drop)]
pub struct Plan<'n, 's, 't> {
    table: Table<'n>,
    names: NameList<'s, 't>,
}

impl<'n, 's, 't> Plan<'n, 's, 't> {
    // One node with label 1, and no names.
    pub fn new() -> Plan<'n, 's, 't>
        ensures nodes { nodes_of result ≡ record { label = 1; depth = 1; origin = 1 } ∷ [] }
        ensures names { names_of result ≡ [] }
    {
        Plan {
            table: Table::new(),
            names: NameList::new(),
        }
    }

    // Reads a plan text into the slots and shows it from now on, or refuses it and shows what it showed.
    pub fn open(
        &mut self,
        text: &'t [u8],
        nodes: &'n mut [Slot],
        names: &'s mut [&'t [u8]],
    ) -> Result<(), PlanFault>
        ensures { Opens (room (length nodes.old) (length names.old)) text.now self.old result self.new }
    {
        let counts = read(text, nodes, names)?;
        let nodes = &nodes[..];
        let names = &names[..];
        let _ = self.table.set(&nodes[0..counts.nodes as usize]);
        let _ = self.names.set(&names[0..counts.names as usize]);
        Ok(())
    }

    pub fn table(&self) -> &Table<'n>
        ensures { result.now ≡ self.now.table }
    {
        &self.table
    }

    pub fn names(&self) -> &NameList<'s, 't>
        ensures { result.now ≡ self.now.names }
    {
        &self.names
    }

    // The line that answers a question text.
    pub fn answer(&self, heap: Global, question: &[u8]) -> Result<String, AllocError>
        ensures { IfOk result (λ line. string_bytes line ≡ answer_line (nodes_of self.now) (names_of self.now) question.now) }
    {
        answer(heap, &self.table, &self.names, question)
    }
}
