// A function on the output: one that always gives a value, or one that may refuse.
ghost use Rattle.parse.specs.Algebra.{and_step, map_run};
ghost use Rattle.parse.specs.Suffixes.{step_suffix, map_suffix};
ghost use Rattle.sequence.specs.Refusing.{settled_run, settled_suffix};

use crate::settle::Settle;
use parse::{Done, Fault, Function, ParseError, Parser, Stopped, undo};
use sink::Sink;
use text::{Input, Manner};

// The function's value of the output.
#[derive(Drop)]
pub struct Map<F, G> {
    pub f: F,
    pub g: G,
}

impl<T: Input, I: Copy, E: ParseError, F: Parser<T, I, E>, G: Function<T, F::Output>> Parser<
    T,
    I,
    E,
> for Map<F, G> {
    type Output = G::Value;

    ghost means = { λ p cs s c. map_run (G.value p.g cs) (F.means p.f cs s c) };

    fn check<M: Manner>(&self, input: &T) -> Result<Done<T, G::Value>, Stopped<E>> {
        let first = self.f.check::<M>(input)?;
        Ok(Done {
            rest: first.rest,
            output: self.g.call(input, first.output),
            count: first.count,
            peak: first.peak,
        })
    }

    fn emit<M: Manner, S: Sink<Item = I>>(
        &self,
        input: &T,
        sink: &mut S,
    ) -> Result<(T, G::Value), Fault<E>> {
        let (rest, a) = self.f.emit::<M, S>(input, sink)?;
        Ok((rest, self.g.call(input, a)))
    }

    ghost suffix = { λ p cs s c k w. map_suffix cs s
        (G.value p.g cs)
        (F.means p.f cs s c)
        (F.suffix p.f cs s c k w) };
}

// The value of a function that may refuse the output, or `Error` at entry, made of its refusal.
#[derive(Drop)]
pub struct MapTry<F, G> {
    pub f: F,
    pub g: G,
}

// nom's two names for it. The function gives a `Result`; the error is of the kind MapRes, and made of the function's own.
pub type MapRes<F, G> = MapTry<F, G>;

// The function gives an `Option`; the error is of the kind MapOpt.
pub type MapOpt<F, G> = MapTry<F, G>;

impl<
    T: Input,
    I: Copy,
    E: ParseError,
    V: Settle<E> + Drop,
    F: Parser<T, I, E>,
    G: Function<T, F::Output, Value = V>,
> Parser<T, I, E> for MapTry<F, G> {
    type Output = V::Value;

    ghost means = { λ p cs s c. and_step
        (F.means p.f cs s c)
        (λ r a. settled_run r (V.settled s (G.value p.g cs a))) };

    fn check<M: Manner>(&self, input: &T) -> Result<Done<T, V::Value>, Stopped<E>> {
        let first = self.f.check::<M>(input)?;
        match self.g.call(input, first.output).settle(input.span()) {
            Ok(b) => Ok(Done {
                rest: first.rest,
                output: b,
                count: first.count,
                peak: first.peak,
            }),
            Err(e) => Err(Stopped {
                fault: Fault::Error(e),
                peak: first.peak,
            }),
        }
    }

    fn emit<M: Manner, S: Sink<Item = I>>(
        &self,
        input: &T,
        sink: &mut S,
    ) -> Result<(T, V::Value), Fault<E>> {
        let mark = sink.mark();
        let (rest, a) = match self.f.emit::<M, S>(input, sink) {
            Ok(first) => first,
            // no `?`: the mark has to be spent on this way out too
            Err(fault) => {
                sink.keep(mark);
                return Err(fault);
            }
        };
        match self.g.call(input, a).settle(input.span()) {
            Ok(b) => {
                sink.keep(mark);
                Ok((rest, b))
            }
            Err(e) => undo(sink, mark, Fault::Error(e)),
        }
    }

    ghost suffix = { λ p cs s c k w. step_suffix cs s
        (F.means p.f cs s c)
        (λ r a. settled_run r (V.settled s (G.value p.g cs a)))
        (F.suffix p.f cs s c k w)
        (λ r a h. settled_suffix I cs r h.within (V.settled s (G.value p.g cs a))) };
}
