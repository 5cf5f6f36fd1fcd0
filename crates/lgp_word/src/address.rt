//! Addresses of words on the drum.

ghost use Rattle.std.specs.Prelude.{◌≡◌, ℕ, ◌+◌, ◌-◌, ◌*◌, ◌/◌, ◌%◌, ◌<◌, ◌↔◌, IsSome, IfSome, IsTrue, Some};
ghost use Rattle.std.specs.Char.{is_ascii_digit};
ghost use Rattle.lgp_word.specs.Decimal.{decimal_value};
ghost use Rattle.lgp_word.specs.Digits.{address_digits, address_text};
ghost use Rattle.lgp_word.specs.Address.{IsAddress, address_after, sector_of, track_of};

use crate::decimal::are_digits;
use std::marker::Model;

/// The address of a word on the drum, written `ttss`. Clauses see its number, 64 * track + sector.
#[derive(Clone, Copy, Debug, PartialEq, Eq, Hash)]
pub struct Address {
    number: u16,
}

impl Model for Address {
    ghost Value = { ℕ };

    ghost view = { λ address. address.number };

    ghost invariant = { λ address. IsAddress address.number };

    ghost inverse = { λ number. record { number = number } };
}

impl Address {
    /// How many sectors a track has, and how many tracks the drum.
    pub const SECTORS: u16 = 64;

    /// How many addresses there are: 64 tracks of 64 sectors.
    pub const COUNT: usize = 64 * 64;

    /// The address of this number; `None` from 4096 on.
    pub fn new(number: u16) -> Option<Address>
        ensures range { IsSome result ↔ IsAddress number }
        ensures value { IfSome result (λ address. address ≡ number) }
    {
        if number < 4096 {
            Some(Address { number })
        } else {
            None
        }
    }

    /// The address of a number below 4096.
    pub(crate) fn of_number(number: u32) -> Address
        requires { number < 4096 }
        ensures { result ≡ number }
    {
        Address {
            number: number as u16,
        }
    }

    /// The address of a text; `None` where it is not exactly four decimal digits, each pair at most 63.
    pub fn parse(text: &[u8]) -> Option<Address>
        ensures value { result ≡ address_text text.now }
        ensures reads_printed { (number : ℕ)
            → IsAddress number → text.now ≡ address_digits number → result ≡ Some number }
        ensures printed_so { IfSome result (λ number. address_digits number ≡ text.now) }
    {
        address_of(text)
    }

    /// The address as `ttss`.
    pub fn print(self) -> [u8; 4]
        ensures { result ≡ address_digits self }
    {
        let track = self.track();
        let sector = self.sector();
        [
            b'0' + (track / 10) as u8,
            b'0' + (track % 10) as u8,
            b'0' + (sector / 10) as u8,
            b'0' + (sector % 10) as u8,
        ]
    }

    /// The address's number, 64 * track + sector.
    pub fn number(self) -> u16
        ensures value { result ≡ self }
        ensures range { IsAddress result }
    {
        self.number
    }

    /// The track, 0 to 63.
    pub fn track(self) -> u16
        ensures value { result ≡ track_of self }
        ensures range { result < 64 }
    {
        self.number / 64
    }

    /// The sector in its track, 0 to 63.
    pub fn sector(self) -> u16
        ensures value { result ≡ sector_of self }
        ensures range { result < 64 }
    {
        self.number % 64
    }

    /// The next address; 0000 comes after 6363.
    pub fn next(self) -> Address
        ensures { result ≡ address_after self }
    {
        Address {
            number: (self.number + 1) % 4096,
        }
    }
}

impl Default for Address {
    ghost is_default = { λ address. address ≡ 0 };

    fn default() -> Self {
        Address { number: 0 }
    }
}

/// The address that a text is, if it is one.
fn address_of(text: &[u8]) -> Option<Address>
    ensures { result ≡ address_text text.now }
{
    if text.len() != 4 || !are_digits(text) {
        return None;
    }
    let track = pair_value(text[0], text[1]);
    let sector = pair_value(text[2], text[3]);
    if track < 64 && sector < 64 {
        Some(Address {
            number: 64 * track + sector,
        })
    } else {
        None
    }
}

/// The number that two decimal digits stand for.
fn pair_value(tens: u8, ones: u8) -> u16
    requires tens { IsTrue (is_ascii_digit tens) }
    requires ones { IsTrue (is_ascii_digit ones) }
    ensures { result ≡ 10 * decimal_value tens + decimal_value ones }
{
    10 * u16::from(tens - b'0') + u16::from(ones - b'0')
}
