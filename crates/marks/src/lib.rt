// Tests of a map that need no decoder: its marks and its entries.
#![tactic(auto)]

ghost use Rattle.std.specs.Prelude.{◌≡◌};
ghost use Rattle.marking.specs.Links.{listed, places};
ghost use Rattle.marking.specs.Check.{first_over, all_inside, is_start, all_starts, wrong_count, first_entry};

use marking::Links;

// The mark of an instruction's first byte.
pub const START: u8 = 1;

// The largest mark: a byte inside an instruction.
pub const INSIDE: u8 = 2;

// The largest number of entries.
const ENTRIES: usize = 256;

// 8, MarkValue: the place of the first mark over 2.
pub fn first_over(marks: &[u8]) -> Option<usize>
    ensures { result ≡ first_over marks.now }
{
    marks.iter().position(|&mark| INSIDE < mark)
}

// All marks are 2.
pub fn all_inside(marks: &[u8]) -> bool
    ensures { result ≡ all_inside marks.now }
{
    marks.iter().all(|&mark| mark == INSIDE)
}

// An address is marked 1; one outside the marks is not.
#[tactic(auto, unfolding(marking::specs::Check::is_start))]
pub fn is_start(marks: &[u8], origin: u16, address: u16) -> bool
    ensures { result ≡ is_start marks.now origin address }
{
    origin <= address && matches!(marks.get(usize::from(address - origin)), Some(&START))
}

// Every link leads to a start.
pub fn all_starts(marks: &[u8], origin: u16, links: Links) -> bool
    ensures { result ≡ all_starts marks.now origin (places (listed links)) }
{
    match links {
        Links::None => true,
        Links::One(x) => is_start(marks, origin, x.place),
        Links::Two(x, y) => is_start(marks, origin, x.place) && is_start(marks, origin, y.place),
    }
}

// 7, EntryCount: no entries, over 256, or a half pair.
#[tactic(auto, unfolding(marking::specs::Check::wrong_count))]
pub fn is_wrong_count(entries: &[u8]) -> bool
    ensures { result ≡ wrong_count entries.now }
{
    let count = entries.len() / 2;
    count == 0 || ENTRIES < count || entries.len() % 2 == 1
}

// 9, EntryNotStart: the first entry, in list order, that is no start.
pub fn first_entry(marks: &[u8], origin: u16, entries: &[u8]) -> Option<u16>
    ensures { result ≡ first_entry marks.now origin entries.now }
{
    entries
        .chunks_exact(2)
        .map(|pair| u16::from_le_bytes([pair[0], pair[1]]))
        .find(|&address| !is_start(marks, origin, address))
}
