// Numbers of 32 bits, printed one behind the other.
// Corners come so: those of a blank, of a file and of a file's triangles.
ghost use Rattle.line.specs.Printed.{SameOut};

use line::out::Out;

// How many numbers there are, and the numbers.
pub fn listed(numbers: &[i32], out: &mut Out<'_>)
    ensures { SameOut out.old out.new }
{
    out.put(b"0");
    out.next_count(numbers.len());
    each(numbers, out);
    out.end();
}

pub fn each(numbers: &[i32], out: &mut Out<'_>)
    ensures { SameOut out.old out.new }
{
    for number in numbers {
        out.next_number(i64::from(*number));
    }
}
