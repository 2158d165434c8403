ghost use Rattle.std.specs.Prelude.{◌+◌, ◌≤◌, IfOk, IfSome, length};
ghost use Rattle.loop_poller.specs.Groups.{AreGroups, FollowFrom};

use crate::group::Group;
use std::alloc::{AllocError, Global};

/// The groups of a loop's points, by number. There is none where the points don't follow one another in the site.
pub(crate) fn groups_of(
    alloc: Global,
    points: &[Option<u16>],
) -> Result<Vec<Option<Group>>, AllocError>
    ensures { IfOk result (λ groups. AreGroups points.now groups.items) }
{
    let count = points.len() / 8;
    let mut groups = vec![in alloc; None; count]?;
    for number in 0..count {
        groups[number] = group_from(points, 8 * number + 1);
    }
    Ok(groups)
}

// The points at eight addresses, from the first one on.
fn group_from(points: &[Option<u16>], first: usize) -> Option<Group>
    requires from { 1 ≤ first }
    requires within { first + 7 ≤ length points.now }
    ensures { IfSome result (λ group. FollowFrom points.now first group) }
{
    let mut begin = 0;
    let mut count = 0;
    for address in first..first + 8 {
        if let Some(point) = points[address - 1] {
            if count == 0 {
                begin = point;
            } else if point as usize != begin as usize + count as usize {
                return None;
            }
            count += 1;
        }
    }
    Some(Group {
        first: begin,
        count,
    })
}
