// A second part that hangs on the first's output: a parser made of it, or one run on the span that it is.
ghost use Rattle.parse.specs.Algebra.{after, rest_at};
ghost use Rattle.parse.specs.Suffixes.{after_suffix};
ghost use Rattle.parse.specs.Subspans.{inner_suffix};

use parse::{Done, Fault, Function, ParseError, Parser, Stopped, Subspan};
use sink::Sink;
use text::{Input, Manner};

// On the remainder of the first part, the parser that the function makes of its output. The first part runs by check, so
// that its items are dropped.
#[derive(Drop)]
pub struct FlatMap<F, G> {
    pub f: F,
    pub g: G,
}

impl<
    T: Input,
    I: Copy,
    E: ParseError,
    P: Parser<T, I, E> + Drop,
    F: Parser<T, I, E>,
    G: Function<T, F::Output, Value = P>,
> Parser<T, I, E> for FlatMap<F, G> {
    type Output = P::Output;

    ghost means = { λ p cs s c. after
        (F.means p.f cs s c).outcome
        (λ r a. P.means (G.value p.g cs a) cs r c) };

    fn check<M: Manner>(&self, input: &T) -> Result<Done<T, P::Output>, Stopped<E>> {
        let first = self.f.check::<M>(input).map_err(Stopped::dropped)?;
        let second = self.g.call(input, first.output);
        second.check::<M>(&first.rest)
    }

    fn emit<M: Manner, S: Sink<Item = I>>(
        &self,
        input: &T,
        sink: &mut S,
    ) -> Result<(T, P::Output), Fault<E>> {
        let first = self.f.check::<M>(input)?;
        let second = self.g.call(input, first.output);
        second.emit::<M, S>(&first.rest, sink)
    }

    ghost suffix = { λ p cs s c k w. after_suffix cs s
        (F.means p.f cs s c).outcome
        (λ r a. P.means (G.value p.g cs a) cs r c)
        (F.suffix p.f cs s c k w)
        (λ r a h. P.suffix (G.value p.g cs a) cs r c k h.within) };
}

// The second part on the part that the first cuts out of its input. What the second leaves of it is dropped: the remainder
// is the first's.
#[derive(Drop)]
pub struct AndThen<F, G> {
    pub f: F,
    pub g: G,
}

impl<T: Input, I: Copy, E: ParseError, F: Subspan<T, I, E>, G: Parser<T, I, E>> Parser<T, I, E>
    for AndThen<F, G> {
    type Output = G::Output;

    ghost means = { λ p cs s c. after
        (F.cuts p.f cs s c).outcome
        (λ r u. rest_at r (G.means p.g cs u c)) };

    fn check<M: Manner>(&self, input: &T) -> Result<Done<T, G::Output>, Stopped<E>> {
        let (rest, inner) = self.f.cut::<M>(input).map_err(Stopped::at_once)?;
        let second = self.g.check::<M>(&inner)?;
        Ok(Done {
            rest,
            output: second.output,
            count: second.count,
            peak: second.peak,
        })
    }

    fn emit<M: Manner, S: Sink<Item = I>>(
        &self,
        input: &T,
        sink: &mut S,
    ) -> Result<(T, G::Output), Fault<E>> {
        let (rest, inner) = self.f.cut::<M>(input)?;
        let (_left, b) = self.g.emit::<M, S>(&inner, sink)?;
        Ok((rest, b))
    }

    ghost suffix = { λ p cs s c k w. inner_suffix cs s
        (F.cuts p.f cs s c).outcome
        (λ u. G.means p.g cs u c)
        (F.inside p.f cs s c k w) };
}
