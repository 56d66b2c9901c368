// Tests of models and trails: every refusal that a model's rules and a trail's calls give, with its place. The bytes are written by hand
// from docs/files.md.

#![tactic(auto)]

#[cfg(test)]
mod tests {
    use model::accepted::Model;
    use model::read::read_model;
    use slip::{Refusal, Slip};
    use std::alloc::Global;
    use std::process::Abort;
    use std::test::Fail;
    use trail::position::Trail;
    use wire::fault::Fault;

    const FIRST_BEYOND: [u8; 6] = [0, 1, 1, 244, 0, 0];

    const FACE_BEYOND: [u8; 13] = [0, 2, 0, 0, 0, 0, 0, 1, 66, 0, 0, 0, 7];

    const FACE_WITH_EVENT: [u8; 13] = [0, 2, 0, 0, 0, 0, 0, 1, 66, 0, 1, 0, 0];

    const SQUARE: [u8; 52] = [
        0, 9, 0, 0, 0, 0, 0, 0, 0, 0, 0, 0, 0, 1, 66, 0, 0, 0, 1, 0, 1, 66, 0, 2, 0, 3, 0, 1, 68,
        0, 0, 0, 2, 0, 1, 68, 0, 1, 0, 3, 0, 3, 66, 0, 6, 0, 7, 68, 0, 4, 0, 5,
    ];

    const BROKEN_SQUARE: [u8; 52] = [
        0, 9, 0, 0, 0, 0, 0, 0, 0, 0, 0, 0, 0, 1, 66, 0, 0, 0, 1, 0, 1, 66, 0, 2, 0, 3, 0, 1, 68,
        0, 0, 0, 2, 0, 1, 68, 0, 0, 0, 3, 0, 3, 66, 0, 6, 0, 7, 68, 0, 4, 0, 5,
    ];

    const SWAPPED_LETTERS: [u8; 52] = [
        0, 9, 0, 0, 0, 0, 0, 0, 0, 0, 0, 0, 0, 1, 66, 0, 0, 0, 1, 0, 1, 66, 0, 2, 0, 3, 0, 1, 68,
        0, 0, 0, 2, 0, 1, 68, 0, 1, 0, 3, 0, 3, 68, 0, 6, 0, 7, 66, 0, 4, 0, 5,
    ];

    const BUSY_FIRST: [u8; 13] = [0, 2, 0, 1, 0, 0, 0, 1, 66, 0, 0, 0, 0];

    const BUSY_FINAL: [u8; 15] = [0, 3, 0, 0, 0, 0, 0, 0, 0, 17, 66, 0, 0, 0, 1];

    const SIXTEEN_STARTS: [u8; 118] = [
        0, 17, 0, 0, 0, 0, 0, 1, 66, 0, 0, 0, 0, 0, 1, 66, 0, 0, 0, 0, 0, 1, 66, 0, 0, 0, 0, 0, 1,
        66, 0, 0, 0, 0, 0, 1, 66, 0, 0, 0, 0, 0, 1, 66, 0, 0, 0, 0, 0, 1, 66, 0, 0, 0, 0, 0, 1, 66,
        0, 0, 0, 0, 0, 1, 66, 0, 0, 0, 0, 0, 1, 66, 0, 0, 0, 0, 0, 1, 66, 0, 0, 0, 0, 0, 1, 66, 0,
        0, 0, 0, 0, 1, 66, 0, 0, 0, 0, 0, 1, 66, 0, 0, 0, 0, 0, 1, 66, 0, 0, 0, 0, 0, 1, 66, 0, 0,
        0, 0,
    ];

    const FIFTEEN_STARTS: [u8; 111] = [
        0, 16, 0, 0, 0, 0, 0, 1, 66, 0, 0, 0, 0, 0, 1, 66, 0, 0, 0, 0, 0, 1, 66, 0, 0, 0, 0, 0, 1,
        66, 0, 0, 0, 0, 0, 1, 66, 0, 0, 0, 0, 0, 1, 66, 0, 0, 0, 0, 0, 1, 66, 0, 0, 0, 0, 0, 1, 66,
        0, 0, 0, 0, 0, 1, 66, 0, 0, 0, 0, 0, 1, 66, 0, 0, 0, 0, 0, 1, 66, 0, 0, 0, 0, 0, 1, 66, 0,
        0, 0, 0, 0, 1, 66, 0, 0, 0, 0, 0, 1, 66, 0, 0, 0, 0, 0, 1, 66, 0, 0, 0, 0,
    ];

    const CLOSED_OPENING: [u8; 9] = [0, 1, 0, 0, 0, 64, 1, 0, 1];

    const THREE_CELLS: [u8; 22] = [
        0, 3, 0, 0, 0, 32, 1, 0, 65, 66, 0, 0, 0, 2, 4, 0, 4, 0, 80, 1, 0, 2,
    ];

    // Whether reading the bytes is refused by that slip.
    fn turned_away(rt: &impl Abort, heap: Global, bytes: &[u8], slip: Slip) -> Result<(), Fail> {
        match read_model(heap, bytes) {
            Ok(_) => Err(Fail::new("accepted")),
            Err(Fault::Memory) => Err(Fail::new("no memory")),
            Err(Fault::Refused(found)) => {
                assert_eq!(rt; found, slip);
                Ok(())
            },
        }
    }

    fn read(heap: Global, bytes: &[u8]) -> Result<Model, Fail> {
        read_model(heap, bytes).map_err(|_| Fail::new("refused"))
    }

    // A trail in cell 1 at scale 2, where the barrier may be for eight ticks.
    fn in_barrier(rt: &impl Abort, model: &Model) -> Trail {
        let mut trail = Trail::none();
        assert_eq!(rt; trail.set_out(model, 2), Ok(()));
        assert_eq!(rt; trail.start(model, 1, 1), Ok(()));
        trail
    }

    fn cell_of(trail: &Trail) -> usize {
        trail.position.map_or(999, |p| p.cell)
    }

    #[test]
    fn rules(rt: HostRuntime) -> Result<(), Fail> {
        let heap = rt.alloc();
        turned_away(&rt, heap, &FIRST_BEYOND, Refusal::NoSuchCell.at(500))?;
        turned_away(&rt, heap, &FACE_BEYOND, Refusal::NoSuchCell.at(1))?;
        turned_away(&rt, heap, &FACE_WITH_EVENT, Refusal::WrongLetters.at(1))?;
        turned_away(&rt, heap, &SWAPPED_LETTERS, Refusal::WrongLetters.at(8))?;
        turned_away(&rt, heap, &BROKEN_SQUARE, Refusal::BrokenIdentity.at(8))?;
        turned_away(&rt, heap, &BUSY_FIRST, Refusal::BusyCell.at(1))?;
        turned_away(&rt, heap, &BUSY_FINAL, Refusal::BusyCell.at(2))?;
        turned_away(&rt, heap, &SIXTEEN_STARTS, Refusal::TooManySteps.at(0))
    }

    #[test]
    fn accepted(rt: HostRuntime) {
        let heap = rt.alloc();
        assert!(rt; read_model(heap, &SQUARE).is_ok());
        assert!(rt; read_model(heap, &FIFTEEN_STARTS).is_ok());
    }

    #[test]
    fn setting_out(rt: HostRuntime) -> Result<(), Fail> {
        let model = read(rt.alloc(), &THREE_CELLS)?;
        let mut trail = Trail::none();
        assert_eq!(rt; trail.wait(&model, 1), Err(Refusal::NoTrail.at(0)));
        assert_eq!(rt; trail.set_out(&model, 0), Err(Refusal::BadScale.at(0)));
        assert_eq!(rt; trail.set_out(&model, 1001), Err(Refusal::BadScale.at(0)));
        assert_eq!(rt; trail.set_out(&model, 1000), Ok(()));
        assert_eq!(rt; trail.wait(&model, 1_000_000_000), Ok(()));
        assert_eq!(rt; trail.wait(&model, 1), Err(Refusal::CountTooLarge.at(0)));
        Ok(())
    }

    #[test]
    fn closed_opening(rt: HostRuntime) -> Result<(), Fail> {
        let model = read(rt.alloc(), &CLOSED_OPENING)?;
        let mut trail = Trail::none();
        assert_eq!(rt;
            trail.set_out(&model, 1),
            Err(Refusal::NoConfiguration.at(0))
        );
        Ok(())
    }

    #[test]
    fn starting(rt: HostRuntime) -> Result<(), Fail> {
        let model = read(rt.alloc(), &THREE_CELLS)?;
        let mut trail = Trail::none();
        assert_eq!(rt; trail.start(&model, 3, 1), Err(Refusal::Unknown.at(0)));
        assert_eq!(rt; trail.start(&model, 1, 2), Err(Refusal::Unknown.at(0)));
        assert_eq!(rt; trail.start(&model, 1, 1), Err(Refusal::NoTrail.at(0)));
        assert_eq!(rt; trail.finish(&model, 1), Err(Refusal::NoTrail.at(0)));
        assert_eq!(rt; trail.set_out(&model, 2), Ok(()));
        assert_eq!(rt; trail.finish(&model, 1), Err(Refusal::NotThere.at(0)));
        assert_eq!(rt; trail.start(&model, 1, 1), Ok(()));
        assert_eq!(rt; trail.start(&model, 1, 1), Err(Refusal::NotThere.at(1)));
        assert_eq!(rt; trail.start(&model, 1, 0), Err(Refusal::Unknown.at(1)));
        Ok(())
    }

    #[test]
    fn waiting_at_scale_two(rt: HostRuntime) -> Result<(), Fail> {
        let model = read(rt.alloc(), &THREE_CELLS)?;
        let mut four = in_barrier(&rt, &model);
        assert_eq!(rt; four.wait(&model, 4), Ok(()));
        assert_eq!(rt; four.finish(&model, 1), Ok(()));
        assert_eq!(rt; cell_of(&four), 2);
        let mut three = in_barrier(&rt, &model);
        assert_eq!(rt; three.wait(&model, 3), Ok(()));
        assert_eq!(rt;
            three.finish(&model, 1),
            Err(Refusal::NoConfiguration.at(1))
        );
        assert_eq!(rt; cell_of(&three), 1);
        let mut eight = in_barrier(&rt, &model);
        assert_eq!(rt; eight.wait(&model, 9), Err(Refusal::NoConfiguration.at(1)));
        assert_eq!(rt; eight.wait(&model, 8), Ok(()));
        Ok(())
    }
}
