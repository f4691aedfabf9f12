// Rows: one element put in or taken out, the others moved by one place.
ghost use Rattle.std.specs.Prelude.{◌≡◌, ◌<◌, length};
ghost use Rattle.mains.specs.Rows.{put_in, take_out};

// Puts an element in at a place; those from there on move one place up, and the last is lost.
#[tactic(auto, using(crate::proofs::Shifts::rotated_in))]
pub(crate) fn put_in<T: Copy>(row: &mut [T], place: usize, element: T)
    requires { place < length row.old }
    ensures { row.new ≡ put_in row.old place element }
{
    row[place..].rotate_right(1);
    row[place] = element;
}

// Takes out the element at a place; those after it move one place down, and `last` comes last.
#[tactic(auto, using(crate::proofs::Shifts::rotated_out))]
pub(crate) fn take_out<T: Copy>(row: &mut [T], place: usize, last: T)
    requires { place < length row.old }
    ensures { row.new ≡ take_out row.old place last }
{
    let end = row.len() - 1;
    row[place..].rotate_left(1);
    row[end] = last;
}
