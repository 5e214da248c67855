// An image, whose first byte stands at the address `origin`, and its places.
#![tactic(auto)]

ghost use Rattle.std.specs.Prelude.{◌≡◌, ℕ, ◌+◌, ◌-◌, ◌%◌, ◌<◌, ◌≤◌, IfSome, is_none, length, drop, min, slice_index};
ghost use Rattle.image.specs.Places.{wrong_size, outside, window};

// The addresses that there are: an image ends with the last of them at the latest.
const ADDRESSES: usize = 65536;

// The most bytes that are looked at.
const WINDOW_MAX: usize = 4;

// The bytes of an image of a right size.
#[derive(Clone, Copy)]
pub struct Image<'a> {
    pub bytes: &'a [u8],
    pub origin: u16,
    ghost some: { 0 < length bytes.now },
    ghost fits: { origin + length bytes.now ≤ 65536 },
    // What a slice's type says is not known of one in a struct.
    ghost bytes_fit: { (k : ℕ) → slice_index bytes.now k < 256 },
}

impl<'a> Image<'a> {
    // None is 5, ImageSize: no bytes, or some beyond the last address.
    pub fn new(bytes: &'a [u8], origin: u16) -> Option<Image<'a>>
        ensures refused { is_none result ≡ wrong_size bytes.now origin }
        ensures made { IfSome result (λ image. (image.bytes.now ≡ bytes.now) × (image.origin ≡ origin)) }
    {
        if bytes.is_empty() || ADDRESSES - usize::from(origin) < bytes.len() {
            return None;
        }
        Some(Image { bytes, origin })
    }

    // The place of an address. None is 1, Nothing: it is outside the image.
    pub fn place_of(&self, address: u16) -> Option<usize>
        ensures refused { is_none result ≡ outside self.now.bytes.now self.now.origin address }
        ensures inside { IfSome result (λ place. place < length self.now.bytes.now) }
        ensures found { IfSome result (λ place. self.now.origin + place ≡ address) }
    {
        if is_outside(self.bytes, self.origin, address) {
            return None;
        }
        Some(usize::from(address - self.origin))
    }

    // The address of a place; places count on behind the last address.
    pub fn address_of(&self, place: usize) -> u16
        ensures counted { result ≡ (self.now.origin + place) % 65536 }
        ensures inside { place < length self.now.bytes.now → result ≡ self.now.origin + place }
    {
        self.origin.wrapping_add((place % ADDRESSES) as u16)
    }
}

// 1, Nothing: the address is outside the bytes, of whatever size they are.
pub fn is_outside(bytes: &[u8], origin: u16, address: u16) -> bool
    ensures { result ≡ outside bytes.now origin address }
{
    address < origin || bytes.len() <= usize::from(address - origin)
}

// The end of the bytes that are looked at at a place: up to four, none past the end, and behind it none.
pub fn window_end(place: usize, length: usize) -> usize
    ensures { result ≡ place + min 4 (length - place) }
{
    if length <= place {
        return place;
    }
    place + WINDOW_MAX.min(length - place)
}

// The bytes that are looked at at a place.
pub fn window_of(bytes: &[u8], place: usize) -> &[u8]
    ensures { result.now ≡ window (drop place bytes.now) }
{
    let start = place.min(bytes.len());
    &bytes[start..window_end(start, bytes.len())]
}
