// Shape, place and turn numbers are signed, those that arrive and those in the lent arrays, so that "not 0 to 31" can be said of −1 as well as of 32.
// As an index: itself where it is one of 0 to n − 1, and none where it is not.
ghost use Rattle.pieces.specs.Index.{Indexed};

pub fn index_of(number: i32, n: usize) -> Option<usize>
    ensures { Indexed n number result }
{
    usize::try_from(number).ok().filter(|&i| i < n)
}
