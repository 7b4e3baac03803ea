// A plan worked through, by the definitions and by the calls.
#![tactic(auto)]

ghost use Rattle.worked.specs.Worked.{Worked};

// The theorem that the definitions give the table: without its proof the crate is refused.
pub fn table_is_worked()
    ensures { Worked }
{}

#[cfg(test)]
mod tests {
    use answers::opened::Plan;
    use plan::read::read;
    use std::alloc::{AllocError, Global};
    use std::test::Fail;
    use tree::fault::TableFault;
    use tree::refusal::Refusal;
    use tree::slot::Slot;
    use tree::table::Table;
    use tree::trees::Tree;

    static PLAN: &[u8] =
        b"<PLAN><MON><LESSON/><DRAFT><LESSON/></DRAFT></MON><TUE><LESSON/></TUE></PLAN>";

    // The counts of nodes and names, or the number and the place of a refusal.
    type Outcome = Result<(u16, u16), (u8, u32)>;

    fn outcome_in<'a>(text: &'a [u8], nodes: &mut [Slot], names: &mut [&'a [u8]]) -> Outcome {
        read(text, nodes, names)
            .map(|counts| (counts.nodes, counts.names))
            .map_err(|fault| (fault.number(), fault.place()))
    }

    fn outcome(text: &[u8]) -> Outcome {
        outcome_in(text, &mut [Slot::default(); 80], &mut [&text[0..0]; 4])
    }

    // Elements in one another, as deep as that.
    fn nested(heap: Global, depth: usize) -> Result<Vec<u8>, AllocError> {
        let mut text = b"<A>".repeat(heap, depth)?;
        text.extend_from_slice(b"</A>".repeat(heap, depth)?.as_slice())?;
        Ok(text)
    }

    // An empty tag whose name has as many bytes.
    fn with_name(heap: Global, length: usize) -> Result<Vec<u8>, AllocError> {
        let mut text = Vec::from_slice(heap, b"<")?;
        text.extend_from_slice(b"A".repeat(heap, length)?.as_slice())?;
        text.extend_from_slice(b"/>")?;
        Ok(text)
    }

    // A root with as many empty tags in it, each with a name of its own.
    fn with_names(heap: Global, count: usize) -> Result<Vec<u8>, AllocError> {
        let mut text = Vec::from_slice(heap, b"<R>")?;
        for number in 0..count {
            text.extend_from_slice(format!(in heap; "<N{number}/>")?.as_bytes())?;
        }
        text.extend_from_slice(b"</R>")?;
        Ok(text)
    }

    // A root with as many empty tags in it.
    fn with_nodes(heap: Global, count: usize) -> Result<Vec<u8>, AllocError> {
        let mut text = Vec::from_slice(heap, b"<R>")?;
        text.extend_from_slice(b"<A/>".repeat(heap, count)?.as_slice())?;
        text.extend_from_slice(b"</R>")?;
        Ok(text)
    }

    // The same as `outcome`, with more slots than are ever used.
    fn outcome_at_large(heap: Global, text: &[u8]) -> Result<Outcome, AllocError> {
        let mut nodes = vec![in heap; Slot::default(); 5000]?;
        let mut names = vec![in heap; text; 600]?;
        Ok(outcome_in(text, nodes.as_mut_slice(), names.as_mut_slice()))
    }

    #[test]
    fn plans_are_read_or_refused(rt: HostRuntime) {
        assert_eq!(rt; outcome(b"<A/>"), Ok((1, 1)));
        assert_eq!(rt; outcome(b" \t\r\n<A ></A >\n"), Ok((1, 1)));
        assert_eq!(rt; outcome(b"<A b=\"x>y'z\"  c = '\"'/>"), Ok((1, 1)));
        assert_eq!(rt; outcome(b"<A></B>"), Err((3, 3)));
        assert_eq!(rt; outcome(b"<A/><B/>"), Err((4, 4)));
        assert_eq!(rt; outcome(b"<A>"), Err((5, 3)));
        assert_eq!(rt; outcome(b"<?xml?>"), Err((2, 0)));
        assert_eq!(rt; outcome(b""), Err((5, 0)));
    }

    #[test]
    fn plans_at_their_limits(rt: HostRuntime) -> Result<(), Fail> {
        let heap = rt.alloc();
        assert_eq!(rt; outcome(with_name(heap, 64)?.as_slice()), Ok((1, 1)));
        assert_eq!(rt; outcome(with_name(heap, 65)?.as_slice()), Err((6, 0)));
        assert_eq!(rt; outcome(nested(heap, 64)?.as_slice()), Ok((64, 1)));
        assert_eq!(rt; outcome(nested(heap, 65)?.as_slice()), Err((7, 192)));
        assert_eq!(rt;
            outcome(b" ".repeat(heap, 65536)?.as_slice()),
            Err((5, 65536))
        );
        assert_eq!(rt; outcome(b" ".repeat(heap, 65537)?.as_slice()), Err((1, 0)));
        Ok(())
    }

    #[test]
    fn plans_that_are_full(rt: HostRuntime) -> Result<(), Fail> {
        let heap = rt.alloc();
        let most = outcome_at_large(heap, with_nodes(heap, 4095)?.as_slice())?;
        assert_eq!(rt; most, Ok((4096, 2)));
        let more = outcome_at_large(heap, with_nodes(heap, 4096)?.as_slice())?;
        assert_eq!(rt; more, Err((8, 16383)));
        let most = outcome_at_large(heap, with_names(heap, 511)?.as_slice())?;
        assert_eq!(rt; most, Ok((512, 512)));
        let more = outcome_at_large(heap, with_names(heap, 512)?.as_slice())?;
        assert_eq!(rt; more, Err((9, 3470)));
        Ok(())
    }

    #[test]
    fn a_table_refuses_slots_that_are_no_tree(rt: HostRuntime) {
        let root = Slot {
            label: 1,
            depth: 1,
            place: 0,
        };
        let deep = Slot {
            label: 2,
            depth: 3,
            place: 3,
        };
        let slots = [root, deep];
        let mut table = Table::new();
        assert!(rt; table.set(&slots[0..1]).is_ok());
        assert_eq!(rt; table.set(&slots), Err(TableFault::NoTree(2)));
        assert_eq!(rt; table.set(&slots[1..2]), Err(TableFault::NoTree(1)));
        assert_eq!(rt; table.set(&slots[0..0]), Err(TableFault::NoTree(0)));
        assert_eq!(rt; (table.count(), table.label(1), table.label(2)), (1, 1, 0));
    }

    // Whether the worked plan answers a question with this line.
    fn answers(heap: Global, question: &[u8], line: &[u8]) -> Result<bool, AllocError> {
        let file = Vec::from_slice(heap, PLAN)?;
        let text = file.as_slice();
        let mut nodes = vec![in heap; Slot::default(); 8]?;
        let mut names = vec![in heap; text; 8]?;
        let mut plan = Plan::new();
        if plan
            .open(text, nodes.as_mut_slice(), names.as_mut_slice())
            .is_err()
        {
            return Ok(false);
        }
        let answer = plan.answer(heap, question)?;
        Ok(answer.as_bytes() == line)
    }

    #[test]
    fn questions_on_the_worked_plan(rt: HostRuntime) -> Result<(), Fail> {
        let heap = rt.alloc();
        assert!(rt; answers(heap, b"//LESSON", b"3 3 5 7\n")?);
        assert!(rt; answers(heap, b"//*/LESSON", b"3 3 5 7\n")?);
        assert!(rt; answers(heap, b"/PLAN/*/LESSON", b"2 3 7\n")?);
        assert!(rt; answers(heap, b"//MON//MON", b"0\n")?);
        assert!(rt; answers(heap, b"//*/*", b"6 2 3 4 5 6 7\n")?);
        assert!(rt; answers(heap, b"/PLAN/*", b"2 2 6\n")?);
        assert!(rt; answers(heap, b"///A", b"refused 42 at 0\n")?);
        assert!(rt; answers(heap, b"/A*", b"refused 42 at 2\n")?);
        Ok(())
    }

    #[test]
    fn questions_at_their_limits(rt: HostRuntime) -> Result<(), Fail> {
        let heap = rt.alloc();
        let mut longest = Vec::from_slice(heap, b"/")?;
        longest.extend_from_slice(b"A".repeat(heap, 511)?.as_slice())?;
        assert!(rt; answers(heap, longest.as_slice(), b"0\n")?);
        longest.push(b'A')?;
        assert!(rt; answers(heap, longest.as_slice(), b"refused 41 at 0\n")?);
        assert!(rt; answers(heap, b"", b"refused 41 at 0\n")?);
        assert!(rt; answers(heap, b"//*".repeat(heap, 32)?.as_slice(), b"0\n")?);
        assert!(rt;
            answers(
                heap,
                b"//*".repeat(heap, 33)?.as_slice(),
                b"refused 43 at 96\n",
            )?
        );
        Ok(())
    }
}
