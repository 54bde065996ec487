// What a function may answer that may refuse: a value, or the error that a parser then gives.
ghost use Rattle.std.specs.Prelude.{◌≡◌, Result};
ghost use Rattle.std.specs.Option.{ok_or};
ghost use Rattle.std.specs.Result.{result_map_both};
ghost use Rattle.text.specs.declared.Span.{Span};
ghost use Rattle.parse.specs.declared.error.ErrorKind.TheVariants.{MapRes as MapResKind, MapOpt as MapOptKind};

use parse::{ErrorKind, FromExternalError, ParseError};
use text::Span;

pub trait Settle<E> {
    type Value: Drop;

    ghost settled: { Span → Self → Result Self.Value E };

    // The value, or the error at this span.
    fn settle(self, input: Span) -> Result<Self::Value, E>
        ensures { result ≡ settled input self };
}

impl<B: Drop, E: ParseError> Settle<E> for Option<B> {
    type Value = B;

    ghost settled = { λ s v. ok_or v (E.made s MapOptKind) };

    fn settle(self, input: Span) -> Result<B, E> {
        // no `ok_or`: an error is made only where there is no value
        self.ok_or_else(|| E::from_error_kind(input, ErrorKind::MapOpt))
    }
}

impl<B: Drop, X: Drop, E: ParseError + FromExternalError<X>> Settle<E> for Result<B, X> {
    type Value = B;

    ghost settled = { λ s v. result_map_both (λ b. b) (E.external s MapResKind) v };

    fn settle(self, input: Span) -> Result<B, E> {
        self.map_err(|x| E::from_external_error(input, ErrorKind::MapRes, x))
    }
}
