// Two ways at one place.
ghost use Rattle.std.specs.Prelude.{◌≡◌, Bool, List};
ghost use Rattle.text.specs.declared.Span.{Span};
ghost use Rattle.text.specs.Cells.{Cell};
ghost use Rattle.parse.specs.Algebra.{either};
ghost use Rattle.parse.specs.Subspans.{either_inside};
ghost use Rattle.parse.specs.Suffixes.{either_suffix};

use parse::{Done, Fault, ParseError, Parser, Stopped, Subspan};
use sink::Sink;
use text::{Input, Manner};

// The first part or, only where that is `Error`, the second; where both are, their errors joined.
#[derive(Drop)]
pub struct Or<F, G> {
    pub f: F,
    pub g: G,
}

impl<
    T: Input,
    I: Copy,
    E: ParseError,
    F: Parser<T, I, E>,
    G: Parser<T, I, E, Output = F::Output>,
> Parser<T, I, E> for Or<F, G> {
    type Output = F::Output;

    ghost means = { λ p cs s c. either E.joined (F.means p.f cs s c) (G.means p.g cs s c) };

    fn check<M: Manner>(&self, input: &T) -> Result<Done<T, F::Output>, Stopped<E>> {
        let Stopped { fault, peak } = match self.f.check::<M>(input) {
            Ok(done) => return Ok(done),
            Err(stopped) => stopped,
        };
        let Fault::Error(first) = fault else {
            return Err(Stopped { fault, peak });
        };
        match self.g.check::<M>(input) {
            Ok(second) => Ok(Done {
                peak: peak.max(second.peak),
                ..second
            }),
            Err(stopped) => Err(Stopped {
                fault: stopped.fault.or(first),
                peak: peak.max(stopped.peak),
            }),
        }
    }

    fn emit<M: Manner, S: Sink<Item = I>>(
        &self,
        input: &T,
        sink: &mut S,
    ) -> Result<(T, F::Output), Fault<E>> {
        match self.f.emit::<M, S>(input, sink) {
            Err(Fault::Error(first)) => {
                let second = self.g.emit::<M, S>(input, sink);
                second.map_err(|fault| fault.or(first))
            }
            answer => answer,
        }
    }

    ghost suffix = { λ p cs s c k w. either_suffix cs s E.joined
        (F.means p.f cs s c)
        (G.means p.g cs s c)
        (F.suffix p.f cs s c k w)
        (G.suffix p.g cs s c k w) };
}

impl<T: Input, I: Copy, E: ParseError, F: Subspan<T, I, E>, G: Subspan<T, I, E>> Subspan<T, I, E>
    for Or<F, G> {
    ghost cuts = { λ p cs s c. either E.joined (F.cuts p.f cs s c) (G.cuts p.g cs s c) };

    fn cut<M: Manner>(&self, input: &T) -> Result<(T, T), Fault<E>> {
        match self.f.cut::<M>(input) {
            Err(Fault::Error(first)) => self.g.cut::<M>(input).map_err(|fault| fault.or(first)),
            answer => answer,
        }
    }

    ghost inside = { λ p cs s c k w. either_inside cs s E.joined
        (F.cuts p.f cs s c)
        (G.cuts p.g cs s c)
        (F.inside p.f cs s c k w)
        (G.inside p.g cs s c k w) };
}

// Of three ways it does not matter which two are taken together: for every text, span and manner both nestings mean the
// same, errors included.
pub fn nestings_agree<
    T: Input,
    I: Copy,
    E: ParseError,
    F: Parser<T, I, E>,
    G: Parser<T, I, E, Output = F::Output>,
    H: Parser<T, I, E, Output = F::Output>,
>(_f: &F, _g: &G, _h: &H)
    ensures { (f : F) (g : G) (h : H) (cs : List Cell) (s : Span) (c : Bool) →
        either E.joined (either E.joined (F.means f cs s c) (G.means g cs s c)) (H.means h cs s c)
        ≡ either E.joined (F.means f cs s c) (either E.joined (G.means g cs s c) (H.means h cs s c)) }
{}
