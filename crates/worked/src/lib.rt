// Worked examples, run.
#![tactic(auto)]

use maps::quad::Quad;
use maps::rows::{halve_row, row_back};
use pairs::Pair;
use parts::assembly::assemble;
use parts::{check_coarse, check_detail, coarse, detail, join};
use refusals::Refusal;
use tower::runs::{Change, replay};
use tower::{Done, build, change, window};

#[cfg(test)]
mod tests {
    use super::*;

    #[test]
    fn halves_round_down(rt: HostRuntime) {
        let pair = Pair::of(0, 3);
        assert_eq!(rt; pair.mean, 1);
        assert_eq!(rt; pair.difference, -3);
        assert_eq!(rt; pair.first(), 0);
        assert_eq!(rt; pair.second(), 3);
    }

    #[test]
    fn four_become_one(rt: HostRuntime) {
        let quad = Quad::of(10, 13, 20, 20);
        assert_eq!(rt; <[i32; 4]>::from(quad), [15, -9, -3, 0]);
        assert_eq!(rt; quad.heights(), [10, 13, 20, 20]);
    }

    // A row with a last place alone: 1 2 9 has the means 1 9 and the difference -1.
    #[test]
    fn a_row_halved(rt: HostRuntime) {
        let mut room = [7; 5];
        let (means, differences) = room[1..5].split_at_mut(2);
        halve_row(&[1, 2, 9], means, differences);
        assert_eq!(rt; room, [7, 1, 9, -1, 7]);
        let mut means = [7; 4];
        let mut differences = [7; 3];
        halve_row(&[1, 2, 9], &mut means, &mut differences);
        assert_eq!(rt; means, [1, 9, 7, 7]);
        assert_eq!(rt; differences, [-1, 7, 7]);
    }

    #[test]
    fn a_row_back(rt: HostRuntime) {
        let mut row = [0; 3];
        row_back(3, 0, &[1, 9], &[-1], &mut row);
        assert_eq!(rt; row, [1, 2, 9]);
        let mut part = [0; 2];
        row_back(3, 1, &[1, 9], &[-1], &mut part);
        assert_eq!(rt; part, [2, 9]);
    }

    // Ten places from the second of a pair on, so that four pairs are made at once.
    #[test]
    fn a_long_row_back(rt: HostRuntime) {
        let mut row = [0; 10];
        let means = [9, 10, 20, 30, 40, 50];
        let differences = [1, 0, 1, 2, 3, -4];
        row_back(12, 1, &means, &differences, &mut row);
        assert_eq!(rt; row, [9, 10, 10, 21, 20, 31, 29, 42, 39, 48]);
    }

    const MAP: [i32; 16] = [1, 2, 3, 4, 5, 6, 7, 8, 9, 9, 9, 9, 0, 0, 0, 7];

    const TOWER: [i32; 16] = [4, -1, -2, -2, -4, -4, 9, 6, -1, -1, -1, -1, 0, 0, 0, -7];

    #[test]
    fn four_by_four(rt: HostRuntime) {
        let mut room = [0; 16];
        assert_eq!(rt; build(2, &MAP, &mut room), Ok(Done::Built));
        assert_eq!(rt; room, TOWER);
        let mut level = [0; 4];
        assert_eq!(rt;
            window(2, &TOWER, 1, 0, 0, 2, 2, &mut level),
            Ok(Done::Shown)
        );
        assert_eq!(rt; level, [3, 5, 4, 6]);
        let mut part = [0; 6];
        assert_eq!(rt;
            window(2, &TOWER, 0, 1, 1, 3, 2, &mut part),
            Ok(Done::Shown)
        );
        assert_eq!(rt; part, [6, 7, 8, 9, 9, 9]);
    }

    // The 13 of 10 13 / 20 20 becomes 14.
    #[test]
    fn a_change(rt: HostRuntime) {
        let mut tower = [15, -9, -3, 0];
        assert_eq!(rt; change(1, &mut tower, 1, 0, 14), Ok(Done::Changed));
        assert_eq!(rt; tower, [16, -8, -4, 0]);
    }

    #[test]
    fn a_run(rt: HostRuntime) {
        let changes = [
            Change {
                x: 0,
                y: 1,
                height: 3,
            },
            Change {
                x: 1,
                y: 0,
                height: 14,
            },
            Change {
                x: 0,
                y: 1,
                height: 20,
            },
        ];
        let mut tower = [0; 4];
        assert!(rt; replay(1, &[10, 13, 20, 20], &changes, &mut tower).is_ok());
        assert_eq!(rt; tower, [16, -8, -4, 0]);
    }

    // The number of a refusal, if the call is refused.
    fn refused(answer: Result<Done, Refusal>) -> Option<u64> {
        answer.err().map(|refusal| refusal.number())
    }

    // Of each call the refusals in their order: where two apply the first is given, and the room is as it was.
    #[test]
    fn build_refuses(rt: HostRuntime) {
        let mut room = [7; 3];
        assert_eq!(rt; refused(build(8, &[-1], &mut room)), Some(1));
        assert_eq!(rt; refused(build(1, &[1, 2, 3], &mut room)), Some(2));
        assert_eq!(rt; refused(build(1, &[1, 2, 3, 4, 5], &mut room)), Some(2));
        assert_eq!(rt; refused(build(1, &[1, 2, 65536, 4], &mut room)), Some(2));
        assert_eq!(rt; refused(build(1, &[1, -2, 3, 4], &mut room)), Some(2));
        assert_eq!(rt; refused(build(1, &[1, 2, 3, 65535], &mut room)), Some(3));
        assert_eq!(rt; room, [7; 3]);
    }

    #[test]
    fn window_refuses(rt: HostRuntime) {
        let mut room = [7; 3];
        assert_eq!(rt;
            refused(window(8, &TOWER, 9, 0, 0, 1, 1, &mut room)),
            Some(1)
        );
        assert_eq!(rt;
            refused(window(1, &TOWER, 9, 0, 0, 1, 1, &mut room)),
            Some(2)
        );
        assert_eq!(rt;
            refused(window(2, &TOWER, 3, 0, 0, 1, 1, &mut room)),
            Some(4)
        );
        assert_eq!(rt;
            refused(window(2, &TOWER, 1, 2, 0, 0, 1, &mut room)),
            Some(4)
        );
        assert_eq!(rt;
            refused(window(2, &TOWER, 0, 1, 0, u64::MAX, 1, &mut room)),
            Some(4)
        );
        assert_eq!(rt;
            refused(window(2, &TOWER, 0, u64::MAX, 0, 2, 1, &mut room)),
            Some(4)
        );
        assert_eq!(rt;
            refused(window(2, &TOWER, 0, 0, 3, 1, 2, &mut room)),
            Some(4)
        );
        assert_eq!(rt;
            refused(window(2, &TOWER, 0, 0, 0, 2, 1, &mut room)),
            Some(3)
        );
        assert_eq!(rt; room, [7; 3]);
        assert_eq!(rt; window(2, &TOWER, 0, 3, 3, 0, 0, &mut []), Ok(Done::Shown));
    }

    #[test]
    fn change_refuses(rt: HostRuntime) {
        let mut tower = [15, -9, -3, 0];
        assert_eq!(rt; refused(change(9, &mut tower, 0, 0, 0)), Some(1));
        assert_eq!(rt; refused(change(2, &mut tower, 0, 0, 0)), Some(2));
        assert_eq!(rt; refused(change(1, &mut tower, 2, 0, 0)), Some(4));
        assert_eq!(rt; refused(change(1, &mut tower, 0, u64::MAX, 0)), Some(4));
        assert_eq!(rt; refused(change(1, &mut tower, 0, 0, 65536)), Some(4));
        assert_eq!(rt; tower, [15, -9, -3, 0]);
    }

    // Numbers that no map gives do no harm.
    #[test]
    fn any_numbers(rt: HostRuntime) {
        let mut tower = [i32::MAX, i32::MIN, i32::MIN, i32::MAX];
        let mut room = [0; 4];
        assert_eq!(rt;
            window(1, &tower, 0, 0, 0, 2, 2, &mut room),
            Ok(Done::Shown)
        );
        assert_eq!(rt; change(1, &mut tower, 1, 1, 65535), Ok(Done::Changed));
    }

    // The tower of four by four places begins with that of two by two, and that with that of one place.
    #[test]
    fn parts_of_a_tower(rt: HostRuntime) {
        assert_eq!(rt; coarse(2, &TOWER, 0), TOWER.as_slice());
        assert_eq!(rt; coarse(2, &TOWER, 1), [4, -1, -2, -2].as_slice());
        assert_eq!(rt; coarse(2, &TOWER, 2), [4].as_slice());
        assert_eq!(rt; detail(2, &TOWER, 1), [-1, -2, -2].as_slice());
        assert_eq!(rt;
            detail(2, &TOWER, 0),
            [-4, -4, 9, 6, -1, -1, -1, -1, 0, 0, 0, -7].as_slice()
        );
        let mut halved = [0; 4];
        assert_eq!(rt; build(1, &[3, 5, 4, 6], &mut halved), Ok(Done::Built));
        assert_eq!(rt; coarse(2, &TOWER, 1), halved.as_slice());
    }

    #[test]
    fn no_such_part(rt: HostRuntime) {
        assert_eq!(rt; coarse(2, &TOWER, 3).len(), 0);
        assert_eq!(rt; coarse(1, &TOWER, 1).len(), 0);
        assert_eq!(rt; coarse(8, &TOWER, 1).len(), 0);
        assert_eq!(rt; detail(2, &TOWER, 2).len(), 0);
        assert_eq!(rt; check_coarse(2, 16, 3), Err(Refusal::NoSuchLevel));
        assert_eq!(rt; check_coarse(2, 17, 3), Err(Refusal::WrongNumber(16)));
        assert_eq!(rt; check_coarse(8, 17, 3), Err(Refusal::TooManyLevels(8)));
        assert_eq!(rt; check_detail(2, 15, 2), Err(Refusal::WrongNumber(15)));
        assert_eq!(rt; check_detail(2, 16, 2), Err(Refusal::NoSuchLevel));
    }

    // A window of the coarse part is one of the whole, a level on.
    #[test]
    fn a_window_of_a_part(rt: HostRuntime) {
        let mut of_part = [0; 4];
        let mut of_whole = [0; 4];
        assert_eq!(rt;
            window(1, coarse(2, &TOWER, 1), 0, 0, 0, 2, 2, &mut of_part),
            Ok(Done::Shown)
        );
        assert_eq!(rt;
            window(2, &TOWER, 1, 0, 0, 2, 2, &mut of_whole),
            Ok(Done::Shown)
        );
        assert_eq!(rt; of_part, [3, 5, 4, 6]);
        assert_eq!(rt; of_whole, [3, 5, 4, 6]);
    }

    #[test]
    fn grown_from_parts(rt: HostRuntime) {
        let mut room = [0; 4];
        assert_eq!(rt; join(1, &[4], &[-1, -2, -2], &mut room), Ok(()));
        assert_eq!(rt; room, [4, -1, -2, -2]);
        let mut whole = [0; 16];
        assert_eq!(rt;
            assemble(
                2,
                &[
                    &[4],
                    &[-1, -2, -2],
                    &[-4, -4, 9, 6, -1, -1, -1, -1, 0, 0, 0, -7],
                ],
                &mut whole,
            ),
            Ok(())
        );
        assert_eq!(rt; whole, TOWER);
    }

    #[test]
    fn parts_that_do_not_fit(rt: HostRuntime) {
        let mut room = [7; 4];
        let place = Err(Refusal::WrongNumber(1));
        assert_eq!(rt;
            join(8, &[4], &[1, 2, 3], &mut room),
            Err(Refusal::TooManyLevels(8))
        );
        assert_eq!(rt; join(0, &[4], &[], &mut room), Err(Refusal::NoSuchLevel));
        assert_eq!(rt; join(1, &[4, 5], &[1, 2, 3], &mut room), place);
        assert_eq!(rt;
            join(1, &[], &[1, 2, 3], &mut room),
            Err(Refusal::WrongNumber(0))
        );
        assert_eq!(rt;
            join(1, &[4], &[1, 2], &mut room),
            Err(Refusal::WrongNumber(3))
        );
        assert_eq!(rt;
            join(1, &[4], &[1, 2, 3, 4], &mut room),
            Err(Refusal::WrongNumber(4))
        );
        assert_eq!(rt;
            join(1, &[4], &[1, 2, 3], &mut room[0..3]),
            Err(Refusal::WrongRoom(3))
        );
        assert_eq!(rt; assemble(1, &[&[4]], &mut room), place);
        assert_eq!(rt;
            assemble(1, &[&[4], &[1, 2, 3], &[5]], &mut room),
            Err(Refusal::WrongNumber(4))
        );
        assert_eq!(rt;
            assemble(1, &[&[4], &[1, 2]], &mut room),
            Err(Refusal::WrongNumber(3))
        );
        assert_eq!(rt; assemble(0, &[&[4]], &mut room), Err(Refusal::WrongRoom(4)));
        assert_eq!(rt; room, [7; 4]);
    }
}
