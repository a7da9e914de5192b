//! Numbers and expressions read from the front of a text.

ghost use Rattle.std.specs.Prelude.{◌≡◌, ◌+◌, ◌≤◌, ◌<◌, ◌^◌, List, ℕ, Some, None, IfOk, IfSome, option_map, Bool, true, false, codes};
ghost use Rattle.aol_csyn.specs.Stored.{expr_of};
ghost use Rattle.aol_cread.specs.Bytes.{Yields, before, between, expect, is_clear, is_digit, more_digits, negative_from, read_bin, read_count, read_deeper, read_expr, read_negative, read_number, read_op, read_positive};
ghost use Rattle.aol_cread.specs.Eaten.{Eats};
ghost use Rattle.aol_cread.specs.Lines.{read_small};

use aol_csyn::COp;

/// Above the greatest size of a number that is written in digits.
const LIMIT: u64 = 1 << 63;

/// Whether a byte is a decimal digit.
fn is_digit(b: u8) -> bool
    ensures { result ≡ is_digit b }
{
    b >= 48 && b <= 57
}

/// Whether no digit comes next.
fn is_clear(left: &[u8]) -> bool
    ensures { result ≡ is_clear left.now }
{
    match left.split_first() {
        Some((b, _)) => !is_digit(*b),
        None => true,
    }
}

/// A text, read from its front.
#[derive(Drop)]
pub(crate) struct Reader<'t> {
    pub(crate) left: &'t [u8],
}

impl<'t> Reader<'t> {
    /// Takes these bytes where the text begins with them.
    pub(crate) fn eat(&mut self, front: &[u8]) -> bool
        ensures { Eats (expect front.now self.old.left.now) result self.old.left.now self.new.left.now }
    {
        match self.left.strip_prefix(front) {
            Some(rest) => {
                self.left = rest;
                true
            }
            None => false,
        }
    }

    /// The further digits of a number below a limit.
    #[tactic(auto, unfolding(crate::specs::Bytes::more_digits))]
    fn more_digits(&mut self, limit: u64, first: u64) -> Option<u64>
        requires limit { limit ≤ 2 ^ 63 }
        requires first { first < limit }
        ensures number { Yields (more_digits limit first self.old.left.now) result self.new.left.now }
        ensures within { IfSome result (λ n. n < limit) }
    {
        let mut n = first;
        while let Some((b, rest)) = self.left.split_first() {
            if !is_digit(*b) {
                return Some(n);
            }
            if n >= 1 << 60 {
                return None;
            }
            n = 10 * n + u64::from(*b - 48);
            if n >= limit {
                return None;
            }
            self.left = rest;
        }
        Some(n)
    }

    /// A number below a limit, in decimal digits with no leading zero.
    #[tactic(auto, unfolding(crate::specs::Bytes::read_count))]
    fn count(&mut self, limit: u64) -> Option<u64>
        requires limit { limit ≤ 2 ^ 63 }
        requires some { 10 ≤ limit }
        ensures number { Yields (read_count limit self.old.left.now) result self.new.left.now }
        ensures within { IfSome result (λ n. n < limit) }
    {
        let (b, rest) = self.left.split_first()?;
        self.left = rest;
        if *b == 48 {
            return if is_clear(rest) { Some(0) } else { None };
        }
        if !is_digit(*b) {
            return None;
        }
        self.more_digits(limit, u64::from(*b - 48))
    }

    /// A number of 32 bits.
    pub(crate) fn small(&mut self) -> Option<u32>
        ensures { Yields (read_small self.old.left.now) result self.new.left.now }
    {
        match self.count(1 << 32) {
            Some(n) => Some(n as u32),
            None => None,
        }
    }

    /// A number from 0 up.
    pub(crate) fn positive(&mut self) -> Option<i64>
        ensures { Yields (read_positive self.old.left.now) result self.new.left.now }
    {
        let n = self.count(LIMIT)?;
        if self.eat(b"LL") {
            Some(n as i64)
        } else {
            None
        }
    }

    /// A negative number, from the bytes after its size on.
    fn negative_from(&mut self, n: u64) -> Option<i64>
        requires { n < 2 ^ 63 }
        ensures { Yields (negative_from n self.old.left.now) result self.new.left.now }
    {
        if self.eat(b"LL)") {
            return if n == 0 { None } else { Some(-(n as i64)) };
        }
        if n == LIMIT - 1 && self.eat(b"LL - 1LL)") {
            return Some(i64::MIN);
        }
        None
    }

    /// A negative number, after `(-`.
    pub(crate) fn negative(&mut self) -> Option<i64>
        ensures { Yields (read_negative self.old.left.now) result self.new.left.now }
    {
        let n = self.count(LIMIT)?;
        self.negative_from(n)
    }

    /// A number.
    #[tactic(auto, unfolding(crate::specs::Bytes::read_number))]
    pub(crate) fn number(&mut self) -> Option<i64>
        ensures { Yields (read_number self.old.left.now) result self.new.left.now }
    {
        if self.eat(b"(-") {
            self.negative()
        } else {
            self.positive()
        }
    }

    /// An operator between two blanks.
    #[tactic(auto, unfolding(crate::specs::Bytes::read_op))]
    pub(crate) fn op(&mut self) -> Option<COp>
        ensures { Yields (read_op self.old.left.now) result self.new.left.now }
    {
        if self.eat(b" + ") {
            return Some(COp::Add);
        }
        if self.eat(b" - ") {
            return Some(COp::Sub);
        }
        if self.eat(b" * ") {
            return Some(COp::Mul);
        }
        if self.eat(b" / ") {
            return Some(COp::Div);
        }
        if self.eat(b" % ") {
            return Some(COp::Rem);
        }
        if self.eat(b" < ") {
            return Some(COp::Lt);
        }
        if self.eat(b" <= ") {
            return Some(COp::Le);
        }
        if self.eat(b" == ") {
            Some(COp::Eq)
        } else {
            None
        }
    }
}
