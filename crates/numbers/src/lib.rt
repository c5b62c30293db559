// The numbers of tasks and packets.
#![tactic(auto)]

ghost use Rattle.std.specs.Prelude.{◌≡◌, ◌-◌, ◌<◌, ℕ};
ghost use Rattle.chain.specs.Chain.{Row};
ghost use Rattle.numbers.specs.Numbered.{Numbers};

use std::marker::Model;

// A number from 1 to LAST.
#[derive(Clone, Copy, Debug, PartialEq, Eq)]
pub struct Number<const LAST: u8> {
    number: u8,
}

pub type TaskNumber = Number<32>;

pub type PacketNumber = Number<64>;

// There is no such number.
#[derive(Clone, Copy, Debug, PartialEq, Eq)]
pub struct OutOfRange;

impl<const LAST: u8> Model for Number<LAST> {
    ghost Value = { ℕ };

    ghost view = { λ n. n.number };

    ghost invariant = { λ n. Row LAST n.number };

    ghost inverse = { λ n. record { number = n } };
}

impl<const LAST: u8> Number<LAST> {
    pub fn get(self) -> u8
        ensures is { result ≡ self.entry }
        ensures row { Row LAST result }
    {
        self.number
    }

    // The place of the number in a table of as many.
    pub fn index(self) -> usize
        ensures is { result ≡ self.entry - 1 }
        ensures place { result < LAST }
    {
        usize::from(self.number - 1)
    }
}

impl<const LAST: u8> TryFrom<u8> for Number<LAST> {
    type Error = OutOfRange;

    ghost try_from_gives = { Numbers LAST };

    fn try_from(number: u8) -> Result<Self, OutOfRange> {
        if number >= 1 && number <= LAST {
            Ok(Number { number })
        } else {
            Err(OutOfRange)
        }
    }
}

impl<const LAST: u8> TryFrom<u32> for Number<LAST> {
    type Error = OutOfRange;

    ghost try_from_gives = { Numbers LAST };

    fn try_from(n: u32) -> Result<Self, OutOfRange> {
        match u8::try_from(n) {
            Ok(number) if number >= 1 && number <= LAST => Ok(Number { number }),
            _ => Err(OutOfRange),
        }
    }
}

impl<const LAST: u8> From<Number<LAST>> for u32 {
    ghost from_gives = { λ n r. r ≡ n };

    fn from(n: Number<LAST>) -> u32 {
        u32::from(n.get())
    }
}

#[cfg(test)]
mod tests {
    use super::*;
    use std::test::Fail;

    #[test]
    fn numbers_go_from_1_to_the_last(rt: HostRuntime) -> Result<(), Fail> {
        assert_eq!(rt; TaskNumber::try_from(0u32), Err(OutOfRange));
        assert_eq!(rt; TaskNumber::try_from(1u32)?.get(), 1);
        assert_eq!(rt; TaskNumber::try_from(32u32)?.index(), 31);
        assert_eq!(rt; TaskNumber::try_from(33u32), Err(OutOfRange));
        assert_eq!(rt; PacketNumber::try_from(0u8), Err(OutOfRange));
        assert_eq!(rt; PacketNumber::try_from(64u8)?.get(), 64);
        assert_eq!(rt; PacketNumber::try_from(65u8), Err(OutOfRange));
        assert_eq!(rt; PacketNumber::try_from(257u32), Err(OutOfRange));
        Ok(())
    }
}
