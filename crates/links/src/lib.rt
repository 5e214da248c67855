// The next places of a row, each with the word for how it is come by.
#![tactic(auto)]

ghost use Rattle.std.specs.Prelude.{◌≡◌};
ghost use Rattle.marking.specs.Links.{after as after_of, to as to_of, links as links_of, listed};

use marking::{Flow, Link, Links, Word};

// To the place after a row of so many bytes.
fn after(address: u16, length: u8) -> Link
    ensures { result ≡ after_of address length }
{
    to(Word::After, address.wrapping_add(u16::from(length)))
}

fn to(word: Word, place: u16) -> Link
    ensures { result ≡ to_of word place }
{
    Link { word, place }
}

// The links of a row of so many bytes at an address, in the order after, jump, call, restart.
pub fn links(address: u16, length: u8, flow: Flow) -> Links
    ensures { listed result ≡ links_of address length flow }
{
    let on = after(address, length);
    match flow {
        Flow::After | Flow::ReturnIf => Links::One(on),
        Flow::Jump(t) => Links::One(to(Word::Jump, t)),
        Flow::Branch(t) => Links::Two(on, to(Word::Jump, t)),
        Flow::Call(t) | Flow::CallIf(t) => Links::Two(on, to(Word::Call, t)),
        Flow::Restart(t) => Links::Two(on, to(Word::Restart, t)),
        Flow::Return | Flow::RegisterJump => Links::None,
        Flow::Repeat => Links::Two(on, to(Word::Jump, address)),
    }
}
