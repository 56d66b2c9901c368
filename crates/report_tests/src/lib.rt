// Tests of a report in the making: its lines as text, written by hand from docs/report.md.

#![tactic(auto)]

#[cfg(test)]
mod tests {
    use lines::report::Report;
    use lines::{Line, text_of, text_of_all};
    use slip::Refusal;
    use std::test::Fail;
    use trail::position::Position;
    use wire::fault::Fault;
    use wire::step::Step;

    const IN_BAY: Position = Position {
        cell: 2,
        counts: [5, 0, 1, 2, 3, 4],
        scale: 2,
        elapsed: 5,
    };

    // A step with no position after it, as before setting out, has no line.
    #[test]
    fn refused_at_the_end(rt: HostRuntime) -> Result<(), Fail> {
        let heap = rt.alloc();
        let mut report = Report::new(heap);
        report.note(Line::Cells(3))?;
        report.note_step(Step::Start { cell: 1, event: 1 }, Some(IN_BAY))?;
        report.note_step(Step::Wait(5), None)?;
        report.note_end(Some(IN_BAY))?;
        let lines = report.ended(Err(Fault::Refused(Refusal::NotThere.at(2))))?;
        let text = text_of_all(heap, &lines)?;
        assert_eq!(rt;
            text.as_str(),
            "cells 3\nstart cell 1 event 1: cell 2 counts 5 0 1 2 3 4 elapsed 5\ntrail cell 2 elapsed 2.5\nrefused 20 layer 4 place 2\n"
        );
        Ok(())
    }

    #[test]
    fn complete(rt: HostRuntime) -> Result<(), Fail> {
        let heap = rt.alloc();
        let mut report = Report::new(heap);
        report.note(Line::NoTrail)?;
        report.note_end(None)?;
        let lines = report.ended(Ok(()))?;
        let text = text_of_all(heap, &lines)?;
        assert_eq!(rt; text.as_str(), "trail none\n");
        Ok(())
    }

    #[test]
    fn one_line(rt: HostRuntime) -> Result<(), Fail> {
        let text = text_of(rt.alloc(), Line::Took(Step::Finish(1), IN_BAY))?;
        assert_eq!(rt;
            text.as_str(),
            "finish event 1: cell 2 counts 5 0 1 2 3 4 elapsed 5\n"
        );
        Ok(())
    }
}
