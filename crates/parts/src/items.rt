// Items of collections, chosen by masks, where they lie.
ghost use Rattle.parts.specs.Choice.{ChoiceHeld, OrderedChoices};

use std::cmp::Ordering;

// The order of what x chooses of the items from a on, and y of those from b on: item by item, a prefix before what extends it.
pub fn order(s: &[u8], a: usize, x: usize, b: usize, y: usize) -> Ordering
    requires { ChoiceHeld s.now a x × ChoiceHeld s.now b y }
    ensures { OrderedChoices s.now a x b y result }
{
    let mut i = a;
    let mut m = x;
    let mut j = b;
    let mut n = y;
    while m != 0 {
        if n == 0 {
            return Ordering::Greater;
        }
        if m % 2 == 0 {
            i += values::length_of(s, i);
            m /= 2;
            continue;
        }
        if n % 2 == 0 {
            j += values::length_of(s, j);
            n /= 2;
            continue;
        }
        let o = values::compare(s, i, j);
        let Ordering::Equal = o else {
            return o;
        };
        let k = values::length_of(s, i);
        i += k;
        j += k;
        m /= 2;
        n /= 2;
    }
    if n == 0 {
        return Ordering::Equal;
    }
    Ordering::Less
}
