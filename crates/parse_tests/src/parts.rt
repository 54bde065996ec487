// Parts that the tests build parsers of.
ghost use Rattle.std.specs.Prelude.{◌-◌, if◌then◌else◌, Some, None, Ok, Err, nat_le};
ghost use Rattle.parse.specs.Algebra.{still};
ghost use Rattle.parse.specs.Run.{failure};
ghost use Rattle.parse.specs.declared.error.ErrorKind.TheVariants.{Verify as VerifyKind};

use demo::{Digit, Satisfy};
use parse::{Done, ErrorKind, Fault, Function, ParseError, Parser, Stopped};
use sink::Sink;
use text::{Input, Is, Manner};

// The cast widens a byte: with `u32::from` this crate was not proved.
pub fn item(byte: u8) -> Satisfy<Is> {
    Satisfy {
        test: Is { code: byte as u32 },
    }
}

pub fn digit() -> Satisfy<Digit> {
    Satisfy { test: Digit }
}

// The values of the digits up to `5`. The code of an item above is refused.
#[derive(Clone, Copy)]
pub struct Small;

impl<T: Input> Function<T, u32> for Small {
    type Value = Result<u32, u32>;

    ghost value = { λ _ _ code. (if nat_le code 53 then Ok (code - 48) else Err code) };

    fn call(&self, _input: &T, code: u32) -> Result<u32, u32> {
        if code <= 53 {
            Ok(code.saturating_sub(48))
        } else {
            Err(code)
        }
    }
}

// Two codes, of which the second is no smaller.
#[derive(Clone, Copy)]
pub struct Rising;

impl<T: Input> Function<T, (u32, u32)> for Rising {
    type Value = Option<(u32, u32)>;

    ghost value = { λ _ _ codes. (if nat_le codes.0 codes.1 then Some codes else None) };

    fn call(&self, _input: &T, codes: (u32, u32)) -> Option<(u32, u32)> {
        if codes.0 <= codes.1 {
            Some(codes)
        } else {
            None
        }
    }
}

// A parser of the same item once more.
#[derive(Clone, Copy)]
pub struct Again;

impl<T: Input> Function<T, u32> for Again {
    type Value = Satisfy<Is>;

    ghost value = { λ _ _ code. record { test = record { code = code } } };

    fn call(&self, _input: &T, code: u32) -> Satisfy<Is> {
        Satisfy { test: Is { code } }
    }
}

// A failure wherever it is tried: no other way is tried after it.
#[derive(Clone, Copy)]
pub struct Stop;

impl<T: Input, E: ParseError> Parser<T, u32, E> for Stop {
    type Output = u32;

    ghost means = { λ _ _ s _. still (failure (E.made s VerifyKind)) };

    fn check<M: Manner>(&self, input: &T) -> Result<Done<T, u32>, Stopped<E>> {
        let e = E::from_error_kind(input.span(), ErrorKind::Verify);
        Err(Stopped::at_once(Fault::Failure(e)))
    }

    fn emit<M: Manner, S: Sink<Item = u32>>(
        &self,
        input: &T,
        _sink: &mut S,
    ) -> Result<(T, u32), Fault<E>> {
        let e = E::from_error_kind(input.span(), ErrorKind::Verify);
        Err(Fault::Failure(e))
    }

    ghost suffix = { λ _ _ _ _ _ _. tt };
}
