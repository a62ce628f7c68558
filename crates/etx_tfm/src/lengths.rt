//! The twelve numbers at the front of a TFM file, and where its tables begin.
ghost use Rattle.std.specs.Prelude.{◌≡◌, ◌+◌, ◌*◌, ◌≤◌, ◌<◌, length};
ghost use Rattle.std.specs.List.{list_any};
ghost use Rattle.std.specs.Prelude.{nat_le, ◌==◌};
ghost use Rattle.etx_tfm.specs.Lengths.{half_at, lengths_of, all_lengths, character_count, has_bad_codes, has_empty_table, has_wrong_sizes, characters_at, widths_at, heights_at, depths_at, italics_at, steps_at, kerns_at, recipes_at, parameters_at, total};

use byteorder::{BigEndian, ByteOrder};

/// The numbers at the front: the lengths, in words, of the file, its header and its tables, and the first and the last
/// code of a character ("TeX: The Program", section 540).
#[derive(Clone, Copy, Debug, PartialEq, Eq)]
pub struct Lengths {
    pub file: u16,
    pub header: u16,
    pub first: u16,
    pub last: u16,
    pub widths: u16,
    pub heights: u16,
    pub depths: u16,
    pub italics: u16,
    pub steps: u16,
    pub kerns: u16,
    pub recipes: u16,
    pub parameters: u16,
}

/// The least length that is too large.
const TOO_LARGE: u16 = 32768;

#[tactic(auto, unfolding(crate::specs::Lengths::half_at))]
fn half_at(bytes: &[u8], place: usize) -> u16
    requires { 2 * place + 2 ≤ length bytes.now }
    ensures { result ≡ half_at bytes.now place }
{
    BigEndian::read_u16(&bytes[2 * place..])
}

pub fn read_lengths(bytes: &[u8]) -> Lengths
    requires { 24 ≤ length bytes.now }
    ensures { result ≡ lengths_of bytes.now }
{
    Lengths {
        file: half_at(bytes, 0),
        header: half_at(bytes, 1),
        first: half_at(bytes, 2),
        last: half_at(bytes, 3),
        widths: half_at(bytes, 4),
        heights: half_at(bytes, 5),
        depths: half_at(bytes, 6),
        italics: half_at(bytes, 7),
        steps: half_at(bytes, 8),
        kerns: half_at(bytes, 9),
        recipes: half_at(bytes, 10),
        parameters: half_at(bytes, 11),
    }
}

fn has_large(lengths: &[u16]) -> bool
    ensures { result ≡ list_any (nat_le 32768) lengths.now }
{
    for length in lengths {
        if *length >= TOO_LARGE {
            return true;
        }
    }
    false
}

impl Lengths {
    #[tactic(auto, unfolding(crate::specs::Lengths::all_lengths))]
    fn all(&self) -> [u16; 12]
        ensures { result ≡ all_lengths self.now }
    {
        [
            self.file,
            self.header,
            self.first,
            self.last,
            self.widths,
            self.heights,
            self.depths,
            self.italics,
            self.steps,
            self.kerns,
            self.recipes,
            self.parameters,
        ]
    }

    /// How many characters have a word.
    pub fn character_count(&self) -> usize
        ensures value { result ≡ character_count self.now }
        ensures small { result ≤ 65536 }
    {
        (usize::from(self.last) + 1).saturating_sub(usize::from(self.first))
    }

    /// Where the words of the characters begin, in words behind these lengths; and so for each table below.
    pub fn characters_at(&self) -> usize
        ensures value { result ≡ characters_at self.now }
        ensures small { result < 65536 }
    {
        usize::from(self.header)
    }

    pub fn widths_at(&self) -> usize
        ensures value { result ≡ widths_at self.now }
        ensures small { result < 2 * 65536 }
    {
        self.characters_at() + self.character_count()
    }

    pub fn heights_at(&self) -> usize
        ensures value { result ≡ heights_at self.now }
        ensures small { result < 3 * 65536 }
    {
        self.widths_at() + usize::from(self.widths)
    }

    pub fn depths_at(&self) -> usize
        ensures value { result ≡ depths_at self.now }
        ensures small { result < 4 * 65536 }
    {
        self.heights_at() + usize::from(self.heights)
    }

    pub fn italics_at(&self) -> usize
        ensures value { result ≡ italics_at self.now }
        ensures small { result < 5 * 65536 }
    {
        self.depths_at() + usize::from(self.depths)
    }

    pub fn steps_at(&self) -> usize
        ensures value { result ≡ steps_at self.now }
        ensures small { result < 6 * 65536 }
    {
        self.italics_at() + usize::from(self.italics)
    }

    pub fn kerns_at(&self) -> usize
        ensures value { result ≡ kerns_at self.now }
        ensures small { result < 7 * 65536 }
    {
        self.steps_at() + usize::from(self.steps)
    }

    pub fn recipes_at(&self) -> usize
        ensures value { result ≡ recipes_at self.now }
        ensures small { result < 8 * 65536 }
    {
        self.kerns_at() + usize::from(self.kerns)
    }

    pub fn parameters_at(&self) -> usize
        ensures value { result ≡ parameters_at self.now }
        ensures small { result < 9 * 65536 }
    {
        self.recipes_at() + usize::from(self.recipes)
    }

    /// The length, in words, of a file with these tables.
    fn total(&self) -> usize
        ensures { result ≡ total self.now }
    {
        let parameters = self.parameters;
        self.parameters_at() + usize::from(parameters) + 6
    }

    /// Whether the codes are no range of codes up to 255. The range may be empty.
    fn has_bad_codes(&self) -> bool
        ensures { result ≡ has_bad_codes self.now }
    {
        u32::from(self.first) > u32::from(self.last) + 1 || self.last > 255
    }

    fn has_empty_table(&self) -> bool
        ensures { result ≡ has_empty_table self.now }
    {
        self.widths == 0 || self.heights == 0 || self.depths == 0 || self.italics == 0
    }

    fn adds_up(&self) -> bool
        ensures { result ≡ (self.now.file == total self.now) }
    {
        let file = self.file;
        usize::from(file) == self.total()
    }

    /// Whether the lengths are wrong in themselves or don't add up.
    #[tactic(auto, unfolding(crate::specs::Lengths::has_wrong_sizes))]
    pub fn has_wrong_sizes(&self) -> bool
        ensures { result ≡ has_wrong_sizes self.now }
    {
        if has_large(&self.all()) || self.has_bad_codes() {
            return true;
        }
        !self.adds_up() || self.has_empty_table()
    }
}
