// The digits of a figure.
ghost use Rattle.std.specs.Prelude.{◌≡◌, ◌+◌, ◌*◌, ◌^◌, ◌<◌, ◌≤◌, cond, pos, neg_ℤ};

pub const MOST_DIGITS: u8 = 18;

// Digits of which the first is no 0: whether a minus stands before them, how many they are, and
// their number.
#[derive(Clone, Copy)]
pub struct Digits {
    minus: bool,
    pub count: u8,
    value: u64,
    ghost few: { count ≤ 18 },
    ghost short: { value < 10 ^ count },
}

impl Digits {
    pub fn first(minus: bool, d: u8) -> Digits
        requires { d < 10 }
        ensures { (result.minus ≡ minus) × (result.count ≡ 1) × (result.value ≡ d) }
    {
        Digits {
            minus,
            count: 1,
            value: u64::from(d),
        }
    }

    // One digit more.
    pub fn further(self, d: u8) -> Digits
        requires { (self.count < 18) × (d < 10) }
        ensures { (result.minus ≡ self.minus) × (result.count ≡ self.count + 1) × (result.value ≡ self.value * 10 + d) }
    {
        Digits {
            minus: self.minus,
            count: self.count + 1,
            value: self.value * 10 + u64::from(d),
        }
    }

    pub fn number(self) -> i64
        ensures { result ≡ cond self.minus (neg_ℤ (pos self.value)) (pos self.value) }
    {
        let value = self.value as i64;
        if self.minus { -value } else { value }
    }
}
