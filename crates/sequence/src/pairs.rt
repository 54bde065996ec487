// Two parts, one after the other, with both outputs.
ghost use Rattle.parse.specs.Algebra.{and_then, map_run};
ghost use Rattle.parse.specs.Suffixes.{then_suffix, map_suffix};

use parse::{Done, Fault, ParseError, Parser, Stopped, undo};
use sink::Sink;
use text::{Input, Manner};

// Both parts, with both outputs as a pair.
#[derive(Drop)]
pub struct And<F, G> {
    pub f: F,
    pub g: G,
}

impl<T: Input, I: Copy, E: ParseError, F: Parser<T, I, E>, G: Parser<T, I, E>> Parser<T, I, E>
    for And<F, G> {
    type Output = (F::Output, G::Output);

    ghost means = { λ p cs s c. and_then
        (F.means p.f cs s c)
        (λ r a. map_run (λ b. (a, b)) (G.means p.g cs r c)) };

    fn check<M: Manner>(&self, input: &T) -> Result<Done<T, (F::Output, G::Output)>, Stopped<E>> {
        let Done {
            rest,
            output: a,
            count,
            peak,
        } = self.f.check::<M>(input)?;
        // the second part's items stand behind the first's
        let behind = |second: u32| peak.max(count.saturating_add(second));
        let second = self.g.check::<M>(&rest).map_err(|stopped| Stopped {
            fault: stopped.fault,
            peak: behind(stopped.peak),
        })?;
        Ok(Done {
            rest: second.rest,
            output: (a, second.output),
            count: count.saturating_add(second.count),
            peak: behind(second.peak),
        })
    }

    fn emit<M: Manner, S: Sink<Item = I>>(
        &self,
        input: &T,
        sink: &mut S,
    ) -> Result<(T, (F::Output, G::Output)), Fault<E>> {
        let mark = sink.mark();
        let (rest, a) = match self.f.emit::<M, S>(input, sink) {
            Ok(first) => first,
            // no `?`: the mark has to be spent on this way out too. A function for these lines, which stand in
            // `Terminated` and `MapTry` also, would have all of `emit`'s contract again, of a tuple with the mark in it; with
            // a closure for the second part the proof of `emit` did not close.
            Err(fault) => {
                sink.keep(mark);
                return Err(fault);
            }
        };
        match self.g.emit::<M, S>(&rest, sink) {
            Ok((rest, b)) => {
                sink.keep(mark);
                Ok((rest, (a, b)))
            }
            Err(fault) => undo(sink, mark, fault),
        }
    }

    ghost suffix = { λ p cs s c k w. then_suffix cs s
        (F.means p.f cs s c)
        (λ r a. map_run (λ b. (a, b)) (G.means p.g cs r c))
        (F.suffix p.f cs s c k w)
        (λ r a h. map_suffix cs r (λ b. (a, b)) (G.means p.g cs r c) (G.suffix p.g cs r c k h.within)) };
}
