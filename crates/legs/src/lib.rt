// The first leg of a list of waypoints that is bent.
#![tactic(auto)]

ghost use Rattle.std.specs.Prelude.{◌≡◌, ◌≤◌, None, length};
ghost use Rattle.pairs.specs.Pairs.{Even, first_bad};
ghost use Rattle.legs.specs.Legs.{first_bent_of};

// The first leg whose two waypoints are not in line, by its number. Leg k, from 1, goes from waypoint k to waypoint k + 1.
pub fn first_bent(list: &[i32]) -> Option<usize>
    requires { Even (length list.now) × (1 ≤ length list.now) × (first_bad list.now ≡ None) }
    ensures { result ≡ first_bent_of list.now }
{
    let mut p = pairs::point_at(list, 0);
    for k in 1..list.len() / 2 {
        let q = pairs::point_at(list, 2 * k);
        if bends::bent(headings::direction_between(p, q)) {
            return Some(k);
        }
        p = q;
    }
    None
}
