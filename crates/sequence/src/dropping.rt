// Two parts, one after the other, with one output. The other part runs by check, so that its items are dropped.
ghost use Rattle.parse.specs.Algebra.{and_step, after, mapped};
ghost use Rattle.parse.specs.Subspans.{after_inside, step_inside};
ghost use Rattle.parse.specs.Suffixes.{step_suffix, after_suffix, mapped_suffix};

use parse::{Done, Fault, ParseError, Parser, Stopped, Subspan, undo};
use sink::Sink;
use text::{Input, Manner};

// Both parts, with the second's output. The first runs by check, so that its items are dropped.
#[derive(Drop)]
pub struct Preceded<F, G> {
    pub f: F,
    pub g: G,
}

impl<T: Input, I: Copy, E: ParseError, F: Parser<T, I, E>, G: Parser<T, I, E>> Parser<T, I, E>
    for Preceded<F, G> {
    type Output = G::Output;

    ghost means = { λ p cs s c. after (F.means p.f cs s c).outcome (λ r _. G.means p.g cs r c) };

    fn check<M: Manner>(&self, input: &T) -> Result<Done<T, G::Output>, Stopped<E>> {
        let first = self.f.check::<M>(input).map_err(Stopped::dropped)?;
        self.g.check::<M>(&first.rest)
    }

    fn emit<M: Manner, S: Sink<Item = I>>(
        &self,
        input: &T,
        sink: &mut S,
    ) -> Result<(T, G::Output), Fault<E>> {
        let first = self.f.check::<M>(input)?;
        self.g.emit::<M, S>(&first.rest, sink)
    }

    ghost suffix = { λ p cs s c k w. after_suffix cs s
        (F.means p.f cs s c).outcome
        (λ r _. G.means p.g cs r c)
        (F.suffix p.f cs s c k w)
        (λ r _ h. G.suffix p.g cs r c k h.within) };
}

impl<T: Input, I: Copy, E: ParseError, F: Parser<T, I, E>, G: Subspan<T, I, E>> Subspan<T, I, E>
    for Preceded<F, G> {
    ghost cuts = { λ p cs s c. after (F.means p.f cs s c).outcome (λ r _. G.cuts p.g cs r c) };

    fn cut<M: Manner>(&self, input: &T) -> Result<(T, T), Fault<E>> {
        let first = self.f.check::<M>(input)?;
        self.g.cut::<M>(&first.rest)
    }

    ghost inside = { λ p cs s c k w. after_inside cs s
        (F.means p.f cs s c).outcome
        (λ r _. G.cuts p.g cs r c)
        (F.suffix p.f cs s c k w)
        (λ r _ h. G.inside p.g cs r c k h.within) };
}

// Both parts, with the first's output. The second runs by check, so that its items are dropped.
#[derive(Drop)]
pub struct Terminated<F, G> {
    pub f: F,
    pub g: G,
}

impl<T: Input, I: Copy, E: ParseError, F: Parser<T, I, E>, G: Parser<T, I, E>> Parser<T, I, E>
    for Terminated<F, G> {
    type Output = F::Output;

    ghost means = { λ p cs s c. and_step
        (F.means p.f cs s c)
        (λ r a. mapped (λ _. a) (G.means p.g cs r c).outcome) };

    fn check<M: Manner>(&self, input: &T) -> Result<Done<T, F::Output>, Stopped<E>> {
        let first = self.f.check::<M>(input)?;
        let peak = first.peak;
        let second = self
            .g
            .check::<M>(&first.rest)
            .map_err(|stopped| stopped.at(peak))?;
        Ok(Done {
            rest: second.rest,
            output: first.output,
            count: first.count,
            peak,
        })
    }

    fn emit<M: Manner, S: Sink<Item = I>>(
        &self,
        input: &T,
        sink: &mut S,
    ) -> Result<(T, F::Output), Fault<E>> {
        let mark = sink.mark();
        let (rest, a) = match self.f.emit::<M, S>(input, sink) {
            Ok(first) => first,
            // no `?`: the mark has to be spent on this way out too
            Err(fault) => {
                sink.keep(mark);
                return Err(fault);
            }
        };
        match self.g.check::<M>(&rest) {
            Ok(second) => {
                sink.keep(mark);
                Ok((second.rest, a))
            }
            Err(stopped) => undo(sink, mark, stopped.fault),
        }
    }

    ghost suffix = { λ p cs s c k w. step_suffix cs s
        (F.means p.f cs s c)
        (λ r a. mapped (λ _. a) (G.means p.g cs r c).outcome)
        (F.suffix p.f cs s c k w)
        (λ r a h. mapped_suffix cs r (λ _. a) (G.means p.g cs r c).outcome (G.suffix p.g cs r c k h.within)) };
}

impl<T: Input, I: Copy, E: ParseError, F: Subspan<T, I, E>, G: Parser<T, I, E>> Subspan<T, I, E>
    for Terminated<F, G> {
    ghost cuts = { λ p cs s c. and_step
        (F.cuts p.f cs s c)
        (λ r u. mapped (λ _. u) (G.means p.g cs r c).outcome) };

    fn cut<M: Manner>(&self, input: &T) -> Result<(T, T), Fault<E>> {
        let (rest, inner) = self.f.cut::<M>(input)?;
        let second = self.g.check::<M>(&rest)?;
        Ok((second.rest, inner))
    }

    ghost inside = { λ p cs s c k w. step_inside cs s
        (F.cuts p.f cs s c)
        (λ r. (G.means p.g cs r c).outcome)
        (F.inside p.f cs s c k w)
        (λ r h. G.suffix p.g cs r c k h.within) };
}
