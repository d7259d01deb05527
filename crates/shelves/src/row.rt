// A row and its mark.
ghost use Rattle.std.specs.Prelude.{◌≡◌};
ghost use Rattle.shelves.specs.Slots.{MarkOf, mark_of, number};
ghost use Rattle.shelves.specs.Stretches.{StretchOf};

use crate::stretch::Stretch;

// Whether a row's pulse stands or was taken out.
#[derive(Clone, Copy, PartialEq, Eq, Debug)]
pub enum Mark {
    In,
    Out,
}

// The number is no mark's.
#[derive(Clone, Copy, PartialEq, Eq, Debug)]
pub struct NoMark;

// The number of a mark: 0 for in, 1 for out.
impl From<Mark> for u8 {
    ghost from_gives = { λ x y. y ≡ number x };

    fn from(mark: Mark) -> u8 {
        match mark {
            Mark::In => 0,
            Mark::Out => 1,
        }
    }
}

impl TryFrom<u8> for Mark {
    type Error = NoMark;

    ghost try_from_gives = { MarkOf };

    fn try_from(number: u8) -> Result<Mark, NoMark> {
        match number {
            0 => Ok(Mark::In),
            1 => Ok(Mark::Out),
            _ => Err(NoMark),
        }
    }
}

// The row of a pulse: first day, width, the number of its mark (0 in, 1 out, any other no row at
// all) and its amount. The mark is a number, since a caller's list may hold any.
#[derive(Clone, Copy, PartialEq, Eq, Debug)]
pub struct Row<K> {
    pub first: u16,
    pub width: u16,
    pub mark: u8,
    pub amount: K,
}

impl<K> Row<K> {
    // The mark, or nothing where the number is no mark's: such a row is blank.
    pub fn state(&self) -> Option<Mark>
        ensures { result ≡ mark_of self.now.mark }
    {
        Mark::try_from(self.mark).ok()
    }

    // The row's days, or nothing where its numbers make no stretch.
    pub fn stretch(&self) -> Option<Stretch>
        ensures { StretchOf self.now.first self.now.width result }
    {
        let Row { first, width, .. } = *self;
        if first >= 1 && width >= 1 && u32::from(first) + u32::from(width) <= 1001 {
            Some(Stretch { first, width })
        } else {
            None
        }
    }
}

// The slot's number is not below the capacity.
#[derive(Clone, Copy, PartialEq, Eq, Debug)]
pub struct NoSuchSlot;
