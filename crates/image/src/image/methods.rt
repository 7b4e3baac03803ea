// Opening an image, and what it answers.
ghost use Rattle.std.specs.Prelude.{◌≡◌, List, [], ◌∷◌};
ghost use Rattle.std.specs.Option.{option_copied};
ghost use Rattle.names.specs.NameLists.{listed};
ghost use Rattle.tree.specs.Nodes.{node_limit};
ghost use Rattle.tree.specs.Laws.{lawful_laws};
ghost use Rattle.image.specs.Numbered.{numbered, node as node_of, field_at};
ghost use Rattle.image.specs.Showing.{shown, Opens, Judged};

use super::{Image, NONE, ONE};
use crate::fields::{BODY, MOST_NAMES, read_names, read_nodes, split_count, split_header};
use names::list::NameList;
use stored::fault::ImageFault;
use tree::node::Node;
use tree::trees::Tree;

// The node that has this number, and this field.
fn node(number: u16, field: &[u8; 3]) -> Node
    ensures { result ≡ node_of number field.now }
{
    let [high, low, depth] = field;
    Node {
        label: u16::from_be_bytes([*high, *low]),
        depth: *depth as u16,
        origin: number,
    }
}

impl<'a> Image<'a> {
    // One node with label 1, and no names.
    #[tactic(auto, unfolding(tree::specs::Nodes::lawful))]
    pub fn new() -> Image<'a>
        ensures names { (shown result).names ≡ [] }
        ensures nodes { (shown result).nodes ≡ record { label = 1; depth = 1; origin = 1 } ∷ [] }
    {
        Image {
            count: 0,
            names: &NONE,
            nodes: &ONE,
        }
    }

    // Shows these bytes from now on, or refuses them and shows what it showed.
    pub fn open(&mut self, bytes: &'a [u8]) -> Result<(), ImageFault>
        ensures opens { Opens bytes.now self.old result self.new }
        ensures judged { Judged bytes.now result self.new }
    {
        let body = split_header(bytes)?;
        let (count, names) = split_count(MOST_NAMES, body).ok_or(ImageFault::Name(BODY))?;
        let mut slots = [&bytes[..0]; 512];
        let slots = &mut slots[..count as usize];
        let rest = read_names(names, slots).map_err(|wrong| ImageFault::Name(wrong.place(body)))?;
        let nodes = read_nodes(count, rest).map_err(|wrong| ImageFault::Node(wrong.place(body)))?;
        *self = Image {
            count,
            names,
            nodes,
        };
        Ok(())
    }

    // The names, in slots that are lent for them.
    pub fn names<'s>(&self, slots: &'s mut [&'a [u8]; 512]) -> NameList<'s, 'a>
        ensures { listed result ≡ (shown self.now).names }
    {
        let slots = &mut slots[..self.count as usize];
        // The names were good when they were opened, so they are read and held again.
        let _ = read_names(self.names, slots);
        let mut list = NameList::new();
        let _ = list.set(slots);
        list
    }

    // The field of the node that has this number. Two calls, as in a table: a function for them would be no shorter.
    fn field(&self, number: u16) -> Option<&'a [u8; 3]>
        ensures { option_copied result ≡ field_at self.now.nodes.now number }
    {
        let at = usize::from(number).checked_sub(1)?;
        self.nodes.get(at)
    }
}

impl<'a> Tree for Image<'a> {
    ghost nodes = { λ i. numbered 1 i.nodes.now };

    ghost keeps = { λ i. lawful_laws node_limit (numbered 1 i.nodes.now) i.tree };

    #[tactic(auto, using(crate::proofs::Nodes::length_numbered, crate::proofs::Nodes::few_nodes))]
    fn count(&self) -> u16 {
        self.nodes.len() as u16
    }

    #[tactic(auto, using(crate::proofs::Nodes::node_shown))]
    fn node(&self, number: u16) -> Node {
        match self.field(number) {
            Some(field) => node(number, field),
            None => Node::default(),
        }
    }
}
