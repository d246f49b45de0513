//! Elements that come to a place of their list, or are carried to another one.

ghost use Rattle.std.specs.Prelude.{◌≡◌, ◌<◌, ◌≤◌, insert, length, vec_capacity};
ghost use Rattle.cam_edits.specs.Places.{reordered};

/// Takes the element at place `k` out and puts it at place `m`: those between the two move by one place, and no others.
pub(crate) fn carry<T>(elements: &mut [T], k: usize, m: usize)
    requires from { k < length elements.old }
    requires to { m < length elements.old }
    ensures { elements.new ≡ reordered elements.old k m }
{
    if k < m {
        elements[k..m + 1].rotate_left(1);
    } else {
        elements[m..k + 1].rotate_right(1);
    }
}

/// Puts an element at place `k`, those from there on one place further. Takes no memory.
#[inline]
pub(crate) fn put<T: Drop>(elements: &mut Vec<T>, k: usize, element: T)
    requires place { k ≤ length elements.old.items }
    requires room { length elements.old.items < vec_capacity elements.old }
    ensures items { elements.new.items ≡ insert elements.old.items k element }
    ensures room { vec_capacity elements.old ≤ vec_capacity elements.new }
{
    elements.insert(k, element).unwrap();
}
