// Every number that document 01 fixes and a request may change or add to, once: sizes (W4's), ranges, and the refusals by name.
// specs/ has the same numbers for contracts; the four `tied_` functions below tie the two together.
#![tactic(auto)]

ghost use Rattle.std.specs.Prelude.{◌≡◌};
ghost use Rattle.limits.specs.Refusals.{number_of};
ghost use Rattle.limits.specs.Tied.{the_sizes, the_verdicts, the_ranges, the_refusals};

// How many there are: document 01's 32 corners and 64 places are W4's 64 and 128.
pub const SHAPES: usize = 32;

pub const CORNERS: usize = 64;

pub const PLACES: usize = 128;

pub const TURNS: usize = 24;

// The lengths of the lent buffers, each worked out of the counts above.
// A shape has its count of corners, then three numbers for each of the most corners that it may have.
pub const SHAPE_NUMBERS: usize = 3 * CORNERS;

pub const SHAPE_CELLS: usize = 1 + SHAPE_NUMBERS;

pub const SHAPES_LENGTH: usize = SHAPES * SHAPE_CELLS;

// A place has its shape plus one, or 0 where it is empty, its turn, and the three numbers of its offset.
pub const PLACE_CELLS: usize = 5;

pub const PLACES_LENGTH: usize = PLACES * PLACE_CELLS;

pub const ROWS: usize = PLACES * PLACES;

pub const AXIS_MARKS: usize = 2 * PLACES;

pub const MARKS: usize = 3 * AXIS_MARKS;

pub const BOOK: usize = 16;

pub const TALLIES: usize = 4;

// The book's cells: the tallies from 0 on (4 is kept for one more), and the gap (W6). 9 and 10 are kept; every other cell is 0.
pub const GAP_CELL: usize = 8;

// What stands where there is nothing: in a row of no pair, and in the unused tail of an axis's marks.
pub const NO_ROW: u8 = 255;

pub const NO_MARK: u16 = 65535;

// What a row says of a pair: that the boxes are apart, or the verdict of the two pieces.
pub const APART: u8 = 0;

pub const SEPARATE: u8 = 1;

pub const TOUCHING: u8 = 2;

pub const PENETRATING: u8 = 3;

// The ranges, in steps: a shape's corner numbers and an offset's; a placed corner's.
pub const STEPS: i32 = 64;

pub const SHAPE_REACH: i32 = 65536;

pub const PLACED_REACH: i32 = 131072;

// W6: the widest gap.
pub const GAP_MOST: i32 = 4096;

// A typed length: how many digits before and after the separator, and the most in hundredths of a millimetre.
pub const WHOLE_DIGITS: usize = 4;

pub const PART_DIGITS: usize = 2;

pub const MOST_HUNDREDTHS: u32 = 102400;

// W7: how many digits a number of an OFF text may have behind its point.
pub const OFF_DIGITS: usize = 6;

// The refusals of document 01, "When the desk says no", by name.
pub const DONE: u8 = 0;

pub const DISORDER: u8 = 1;

pub const SHAPE_NUMBER: u8 = 2;

pub const LIST_LENGTH: u8 = 3;

pub const CORNER_RANGE: u8 = 4;

pub const SHAPE_LOADED: u8 = 5;

pub const SHAPE_MISSING: u8 = 6;

pub const PLACE_NUMBER: u8 = 7;

pub const PLACE_TAKEN: u8 = 8;

pub const PLACE_EMPTY: u8 = 9;

pub const TURN_NUMBER: u8 = 10;

pub const OFFSET_RANGE: u8 = 11;

pub const SAME_PLACE: u8 = 12;

pub const SHORT_ROOM: u8 = 13;

pub const LENGTH_FORM: u8 = 14;

pub const LENGTH_RANGE: u8 = 15;

pub const NOT_FINITE: u8 = 16;

pub const NOT_WHOLE: u8 = 17;

pub const FLOAT_RANGE: u8 = 18;

pub const SIZE_ZERO: u8 = 19;

pub const PLACED_RANGE: u8 = 20;

// The refusals that requests add (document 02): of files (W2), of the gap (W6), of texts (W7).
pub const FILE_LENGTH: u8 = 21;

pub const COUNT_ZERO: u8 = 22;

pub const MANY_CORNERS: u8 = 23;

pub const GAP_REFUSED: u8 = 24;

pub const COMMA_REFUSED: u8 = 25;

pub const BAD_TEXT: u8 = 26;

// The refusals of document 01, "When the desk says no", by name, and in the order of their numbers; behind PlacedRange those that requests add (document 02).
#[derive(Clone, Copy, PartialEq, Eq, PartialOrd, Ord)]
pub enum Refusal {
    Disorder,
    ShapeNumber,
    ListLength,
    CornerRange,
    ShapeLoaded,
    ShapeMissing,
    PlaceNumber,
    PlaceTaken,
    PlaceEmpty,
    TurnNumber,
    OffsetRange,
    SamePlace,
    ShortRoom,
    LengthForm,
    LengthRange,
    NotFinite,
    NotWhole,
    FloatRange,
    SizeZero,
    PlacedRange,
    FileLength,
    CountZero,
    ManyCorners,
    GapRefused,
    CommaRefused,
    BadText,
}

impl Refusal {
    // The number that the documents give a refusal.
    pub fn number(self) -> u8
        ensures { result ≡ number_of self }
    {
        match self {
            Refusal::Disorder => DISORDER,
            Refusal::ShapeNumber => SHAPE_NUMBER,
            Refusal::ListLength => LIST_LENGTH,
            Refusal::CornerRange => CORNER_RANGE,
            Refusal::ShapeLoaded => SHAPE_LOADED,
            Refusal::ShapeMissing => SHAPE_MISSING,
            Refusal::PlaceNumber => PLACE_NUMBER,
            Refusal::PlaceTaken => PLACE_TAKEN,
            Refusal::PlaceEmpty => PLACE_EMPTY,
            Refusal::TurnNumber => TURN_NUMBER,
            Refusal::OffsetRange => OFFSET_RANGE,
            Refusal::SamePlace => SAME_PLACE,
            Refusal::ShortRoom => SHORT_ROOM,
            Refusal::LengthForm => LENGTH_FORM,
            Refusal::LengthRange => LENGTH_RANGE,
            Refusal::NotFinite => NOT_FINITE,
            Refusal::NotWhole => NOT_WHOLE,
            Refusal::FloatRange => FLOAT_RANGE,
            Refusal::SizeZero => SIZE_ZERO,
            Refusal::PlacedRange => PLACED_RANGE,
            Refusal::FileLength => FILE_LENGTH,
            Refusal::CountZero => COUNT_ZERO,
            Refusal::ManyCorners => MANY_CORNERS,
            Refusal::GapRefused => GAP_REFUSED,
            Refusal::CommaRefused => COMMA_REFUSED,
            Refusal::BadText => BAD_TEXT,
        }
    }
}

#[derive(Drop)]
struct Sizes {
    shapes: usize,
    corners: usize,
    places: usize,
    turns: usize,
    shape_numbers: usize,
    shape_cells: usize,
    shapes_length: usize,
    place_cells: usize,
    places_length: usize,
    rows: usize,
    axis_marks: usize,
    marks: usize,
    book: usize,
    tallies: usize,
    gap_cell: usize,
    no_row: u8,
    no_mark: u16,
}

#[derive(Drop)]
struct Ranges {
    steps: i32,
    shape_reach: i32,
    placed_reach: i32,
    gap_most: i32,
    whole_digits: usize,
    part_digits: usize,
    most_hundredths: u32,
    off_digits: usize,
}

#[derive(Drop)]
struct Verdicts {
    apart: u8,
    separate: u8,
    touching: u8,
    penetrating: u8,
}

#[derive(Drop)]
struct Refusals {
    desk: [u8; 14],
    text: [u8; 7],
    requests: [u8; 6],
}

// The sizes of this file are those of specs/.
fn tied_sizes() -> Sizes
    ensures { result ≡ the_sizes }
{
    Sizes {
        shapes: SHAPES,
        corners: CORNERS,
        places: PLACES,
        turns: TURNS,
        shape_numbers: SHAPE_NUMBERS,
        shape_cells: SHAPE_CELLS,
        shapes_length: SHAPES_LENGTH,
        place_cells: PLACE_CELLS,
        places_length: PLACES_LENGTH,
        rows: ROWS,
        axis_marks: AXIS_MARKS,
        marks: MARKS,
        book: BOOK,
        tallies: TALLIES,
        gap_cell: GAP_CELL,
        no_row: NO_ROW,
        no_mark: NO_MARK,
    }
}

// The verdicts of this file are those of specs/.
fn tied_verdicts() -> Verdicts
    ensures { result ≡ the_verdicts }
{
    Verdicts {
        apart: APART,
        separate: SEPARATE,
        touching: TOUCHING,
        penetrating: PENETRATING,
    }
}

// The ranges of this file are those of specs/.
fn tied_ranges() -> Ranges
    ensures { result ≡ the_ranges }
{
    Ranges {
        steps: STEPS,
        shape_reach: SHAPE_REACH,
        placed_reach: PLACED_REACH,
        gap_most: GAP_MOST,
        whole_digits: WHOLE_DIGITS,
        part_digits: PART_DIGITS,
        most_hundredths: MOST_HUNDREDTHS,
        off_digits: OFF_DIGITS,
    }
}

// The refusals of this file are those of specs/, and each name has its number of document 01, or of the request that adds it.
fn tied_refusals() -> Refusals
    ensures { result ≡ the_refusals }
{
    Refusals {
        desk: [
            DONE,
            DISORDER,
            SHAPE_NUMBER,
            LIST_LENGTH,
            CORNER_RANGE,
            SHAPE_LOADED,
            SHAPE_MISSING,
            PLACE_NUMBER,
            PLACE_TAKEN,
            PLACE_EMPTY,
            TURN_NUMBER,
            OFFSET_RANGE,
            SAME_PLACE,
            SHORT_ROOM,
        ],
        text: [
            LENGTH_FORM,
            LENGTH_RANGE,
            NOT_FINITE,
            NOT_WHOLE,
            FLOAT_RANGE,
            SIZE_ZERO,
            PLACED_RANGE,
        ],
        requests: [
            FILE_LENGTH,
            COUNT_ZERO,
            MANY_CORNERS,
            GAP_REFUSED,
            COMMA_REFUSED,
            BAD_TEXT,
        ],
    }
}
