// Leaves taken off an agenda: names, any and literals are matched before a pattern with parts that stands before them.
ghost use Rattle.forming.specs.Pending.{TakeHeld, Taken};

use crate::{Agenda, needs};
use matching::leaves;
use parts::words::Env;
use tables::shape::is_composed;
use tables::sheet::Sheet;

// The entry with parts that waits, 0 where there is none as in the agenda; and the entry to go on from.
#[derive(Clone, Copy)]
pub struct Left {
    pub wait: usize,
    pub head: usize,
}

// Takes leaves off an agenda, up to its end or to the second pattern with parts. None where one of them does not agree, or a pattern with parts lacks an
// item, where this is asked.
pub fn take_leaves(
    sheet: &Sheet,
    s: &[u8],
    agenda: &Agenda,
    head: usize,
    found: &mut [u32; Env::NAMES],
    asks: bool,
) -> Option<Left>
    requires { TakeHeld sheet.now s.now agenda.now head found.old }
    ensures { Taken sheet.now s.now agenda.now head found.old found.new result }
{
    let mut head = head;
    let mut wait = 0;
    while 0 < head {
        let p = agenda[3 * head] as usize;
        let word = agenda[3 * head + 1];
        let next = agenda[3 * head + 2] as usize;
        let k = sheet.kind(p);
        if is_composed(k) {
            if !needs::may_match(asks, sheet, p, s, word, found) {
                return None;
            }
            if 0 < wait {
                return Some(Left { wait, head });
            }
            wait = head;
        } else if !leaves::match_leaf(sheet, p, s, word, found) {
            return None;
        }
        head = next;
    }
    Some(Left { wait, head })
}
