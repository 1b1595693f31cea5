//! Callers that stop in the middle, and what the one that goes on says.

ghost use Rattle.std.specs.Prelude.{◌≡◌, All, OnOk};
ghost use Rattle.normaliser.specs.Searches.{IsCallerOf, places_of};

use crate::toy::{all_told, next, toy};
use normaliser::{Caller, How, Normaliser, Tally};
use std::alloc::Global;
use std::test::Fail;

/// How many places there are, those at which all callers but the first stop, in the order of the callers, and how each stops.
type Row = (u32, &'static [u32], &'static [How]);

const ROWS: [Row; 3] = [
    // each place is claimed
    (4, &[0, 1, 2, 3], &[How::Claiming; 4]),
    // the second finds the claim of the first
    (1, &[0, 0], &[How::Claiming, How::Knocking(12_884_901_888)]),
    // the first at a place claims it, and the others find its number there, and how many are counted
    (
        7,
        &[0, 0, 0, 1, 1, 2, 3, 4, 5, 6, 6, 5, 4, 3, 2],
        &[
            How::Claiming,
            How::Knocking(12_884_901_888),
            How::Knocking(12_884_901_889),
            How::Claiming,
            How::Knocking(25_769_803_776),
            How::Claiming,
            How::Claiming,
            How::Claiming,
            How::Claiming,
            How::Claiming,
            How::Knocking(51_539_607_552),
            How::Knocking(47_244_640_256),
            How::Knocking(42_949_672_960),
            How::Knocking(38_654_705_664),
            How::Knocking(34_359_738_368),
        ],
    ),
];

const LINES: [&[u8]; 4] = [b"3 cats", b"rain .", b"2 may", b"31 december 20 dogs"];

const WORDS: &[u8] = b"= three cats\n= rain\n= may second\n= december thirty first twenty dogs\n";

/// The next callers stop at these places, and how.
fn stop_all(
    alloc: Global,
    normaliser: &Normaliser,
    callers: &mut Vec<Caller>,
    stops: &[u32],
    places: u32,
) -> Result<Vec<How>, Fail>
    requires places { places_of normaliser.now ≡ places }
    requires ready { All (IsCallerOf normaliser.now) callers.old.items }
{
    let mut hows = Vec::new(alloc);
    for place in stops {
        if *place >= places {
            return Err("no such place")?;
        }
        let caller = next(normaliser, callers)?;
        hows.push(normaliser.stall(caller, *place).how)?;
    }
    Ok(hows)
}

/// Whether there were looks, all of which found nothing, and no code of theirs was taken in.
fn kept_nothing(tally: &Tally) -> bool {
    let refused = tally.no_place.saturating_add(tally.wide);
    tally.looks > 0 && tally.shown == 0 && tally.published == 0 && refused == tally.looks
}

/// Each place is claimed once the others have stopped, whether it was empty or a code was shown there.
#[test]
fn others_stop_at_all_places(rt: HostRuntime) -> Result<(), Fail> {
    let alloc = rt.alloc();
    for (places, stops, hows) in ROWS {
        for lines_before in 0usize..5 {
            let (normaliser, mut callers) = toy(alloc, places, stops.len() + 1)?;
            let mut first = next(&normaliser, &mut callers)?;
            let before = &LINES[..lines_before];
            let _ = all_told(alloc, &normaliser, &mut first, before)?;
            let stopped = stop_all(alloc, &normaliser, &mut callers, stops, places)?;
            assert!(rt; stopped.as_slice() == hows);
            let _ = first.take_tally();
            let told = all_told(alloc, &normaliser, &mut first, &LINES)?;
            assert_eq!(rt; told.as_slice(), WORDS);
            assert!(rt; kept_nothing(&first.take_tally()));
        }
    }
    Ok(())
}
