use clocks::Sign;
use std::alloc::AllocError;
use std::test::Fail;
use wire::fault::Fault;
use wire::files::{cover_file, model_file, trail_file};

// The number and the place of the refusal, or two zeros where there is none.
fn slip_of<T: Drop>(read: Result<T, Fault>) -> Result<(u8, usize), AllocError> {
    match read {
        Ok(_) => Ok((0, 0)),
        Err(Fault::Refused(slip)) => Ok((slip.refusal.number(), slip.place)),
        Err(Fault::Memory) => Err(AllocError),
    }
}

#[test]
fn fields_cut_off(rt: HostRuntime) -> Result<(), Fail> {
    let heap = rt.alloc();
    assert_eq!(rt; slip_of(model_file(heap, &[]))?, (1, 0));
    assert_eq!(rt; slip_of(model_file(heap, &[0, 1, 0]))?, (1, 2));
    assert_eq!(rt;
        slip_of(model_file(heap, &[0, 1, 0, 0, 0, 1, b'B', 0, 0, 9]))?,
        (1, 9)
    );
    assert_eq!(rt; slip_of(trail_file(heap, &[0]))?, (1, 0));
    assert_eq!(rt; slip_of(trail_file(heap, &[0, 4, b'w', 0, 0, 0]))?, (1, 3));
    assert_eq!(rt; slip_of(cover_file(heap, &[0, 1, 0, 0]))?, (1, 4));
    assert_eq!(rt;
        slip_of(cover_file(heap, &[0, 1, 0, 0, 1, 1, 0, 255]))?,
        (1, 7)
    );
    Ok(())
}

#[test]
fn counts(rt: HostRuntime) -> Result<(), Fail> {
    let heap = rt.alloc();
    assert_eq!(rt; slip_of(model_file(heap, &[0, 0, 0, 0]))?, (2, 0));
    assert_eq!(rt; slip_of(model_file(heap, &[0, 201, 0, 0]))?, (2, 0));
    assert_eq!(rt; slip_of(model_file(heap, &[0, 200, 0, 0]))?, (1, 4));
    assert_eq!(rt; slip_of(cover_file(heap, &[0, 0]))?, (0, 0));
    assert_eq!(rt; slip_of(cover_file(heap, &[1, 0]))?, (1, 2));
    assert_eq!(rt; slip_of(cover_file(heap, &[1, 1]))?, (2, 0));
    Ok(())
}

#[test]
fn bits(rt: HostRuntime) -> Result<(), Fail> {
    let heap = rt.alloc();
    assert_eq!(rt;
        slip_of(model_file(heap, &[0, 1, 0, 0, 0, 5]))?,
        (3, 4),
        "a hole among the events"
    );
    assert_eq!(rt;
        slip_of(model_file(heap, &[0, 1, 0, 0, 16, 0]))?,
        (3, 4),
        "bit 12"
    );
    assert_eq!(rt;
        slip_of(model_file(heap, &[0, 1, 0, 0, 0, 64, 0]))?,
        (3, 6),
        "no end"
    );
    assert_eq!(rt;
        slip_of(model_file(heap, &[0, 1, 0, 0, 0, 64, 6]))?,
        (3, 6),
        "open without its end"
    );
    assert_eq!(rt;
        slip_of(model_file(heap, &[0, 1, 0, 0, 0, 64, 17]))?,
        (3, 6),
        "bit 4 of a clock's byte"
    );
    Ok(())
}

#[test]
fn ranges(rt: HostRuntime) -> Result<(), Fail> {
    let heap = rt.alloc();
    assert_eq!(rt;
        slip_of(model_file(heap, &[0, 1, 0, 0, 0, 1, b'X']))?,
        (4, 6)
    );
    assert_eq!(rt; slip_of(model_file(heap, &[0, 1, 0, 0, 0, 32, 0]))?, (4, 6));
    assert_eq!(rt;
        slip_of(model_file(heap, &[0, 1, 0, 0, 0, 32, 64]))?,
        (4, 6)
    );
    assert_eq!(rt;
        slip_of(model_file(heap, &[0, 1, 0, 0, 0, 64, 1, 39, 16]))?,
        (4, 7),
        "10,000"
    );
    assert_eq!(rt;
        slip_of(model_file(heap, &[0, 1, 0, 0, 0, 64, 1, 39, 15]))?,
        (0, 0),
        "9,999"
    );
    assert_eq!(rt; slip_of(trail_file(heap, &[0, 4, b'f', 1, b'x']))?, (4, 4));
    Ok(())
}

#[test]
fn surplus(rt: HostRuntime) -> Result<(), Fail> {
    let heap = rt.alloc();
    assert_eq!(rt; slip_of(model_file(heap, &[0, 1, 0, 0, 0, 0, 7]))?, (5, 6));
    assert_eq!(rt; slip_of(cover_file(heap, &[0, 1, 0, 0, 0, 7]))?, (5, 5));
    let mut zeros = vec![in heap; 0; 60000]?;
    assert_eq!(rt; slip_of(model_file(heap, &zeros))?, (2, 0), "60,000 bytes");
    zeros.push(0)?;
    assert_eq!(rt; slip_of(model_file(heap, &zeros))?, (5, 60000));
    assert_eq!(rt; slip_of(trail_file(heap, &zeros))?, (5, 60000));
    assert_eq!(rt; slip_of(cover_file(heap, &zeros))?, (5, 60000));
    Ok(())
}

#[test]
fn accepted_model(rt: HostRuntime) -> Result<(), Fail> {
    let bytes = [
        0, 3, 0, 0, 0, 32, 1, 0, 65, 66, 0, 0, 0, 2, 4, 0, 4, 0, 80, 1, 0, 2,
    ];
    let Ok(f) = model_file(rt.alloc(), &bytes) else {
        assert!(rt; false);
        return Ok(());
    };
    assert!(rt; f.cells.len() == 3);
    assert_eq!(rt; f.first, 0);
    assert_eq!(rt; f.cells[0].exits, 1);
    assert_eq!(rt; f.cells[1].events[0].upper, 2);
    assert!(rt; f.cells[2].last);
    Ok(())
}

#[test]
fn accepted_trail(rt: HostRuntime) -> Result<(), Fail> {
    let bytes = [0, 4, b'w', 0, 0, 1, 2, b's', 0, 1, 1, b'f', 1];
    let Ok(t) = trail_file(rt.alloc(), &bytes) else {
        assert!(rt; false);
        return Ok(());
    };
    assert_eq!(rt; t.scale, 4);
    assert_eq!(rt; t.steps.len(), 3);
    Ok(())
}

#[test]
fn accepted_cover(rt: HostRuntime) -> Result<(), Fail> {
    let bytes = [0, 2, 0, 0, 0, 0, 1, 1, 1, 0, 0, 3];
    let Ok(c) = cover_file(rt.alloc(), &bytes) else {
        assert!(rt; false);
        return Ok(());
    };
    assert!(rt; c.entries.len() == 2);
    assert_eq!(rt; c.entries[0].gaps.len(), 0);
    assert_eq!(rt; c.entries[1].cell, 1);
    assert!(rt; c.entries[1].gaps.len() == 1);
    let gap = c.entries[1].gaps[0];
    assert_eq!(rt; (gap.first, gap.second, gap.constant), (1, 0, 1));
    assert_eq!(rt; gap.sign, Sign::AtMost);
    Ok(())
}
