ghost use Rattle.std.specs.Prelude.{◌≡◌, ◌<◌};
ghost use Rattle.envy_array.specs.Array.{Array};
ghost use Rattle.envy_mirror.specs.Mirroring.{Mirrors};

use crate::answers::{BoardRequest, answer};
use crate::power_line::{obey_power, tell};
use crate::recovery::PairBuffer;
use envy_base::Bench;
use envy_io::{Failed, Sink};
use envy_mirror::Mirror;
use envy_serve::{LineOutcome, Service};
use envy_trace::{
    LineFault, MirrorLine, MirrorReply, mirror_grammar_holds_both_ways, read_mirror_line,
};

/// A pair of memories that answers the lines of a trace, and the side that its lines speak of.
pub struct MirrorService<A: Bench, B: Bench> {
    pub mirror: Mirror<A, B>,
    pub side: u8,
    pub buffer: PairBuffer,
}

impl<A: Bench, B: Bench> MirrorService<A, B> {
    /// The lines speak of side 0 at first.
    pub fn new(mirror: Mirror<A, B>) -> MirrorService<A, B>
        ensures mirror { result.mirror ≡ mirror }
        ensures side { result.side ≡ 0 }
    {
        MirrorService {
            mirror,
            side: 0,
            buffer: PairBuffer::new(),
        }
    }

    /// Gives the boards back.
    pub fn into_mirror(self) -> Mirror<A, B>
        ensures { result ≡ self.mirror }
    {
        let MirrorService {
            mirror,
            side: _,
            buffer: _,
        } = self;
        mirror
    }
}

impl<A: Bench, B: Bench> Service for MirrorService<A, B> {
    ghost use Rattle.std.specs.Prelude.{[], ◌<◌};
    ghost use Rattle.envy_array.specs.Array.{Array};
    ghost use Rattle.envy_mirror.specs.Mirroring.{Mirrors};
    ghost use Rattle.envy_pair.specs.MirrorRun.{mirror_grammar};
    ghost use Rattle.envy_pair.specs.Serving.{Start, MirroredSince, FellSince, IsReady, long_mirror, ready_since};

    type Line = MirrorLine;

    type Reply = MirrorReply;

    ghost grammar = { mirror_grammar };

    ghost Start = { Start };

    ghost Did = { λ start s turns. MirroredSince start s.mirror s.side turns };

    ghost Died = { λ start s turns. FellSince start s.mirror turns };

    ghost IsReady = { λ s. IsReady s.mirror s.side };

    ghost tail = { λ s. [] };

    fn read(bytes: &[u8]) -> Result<MirrorLine, LineFault> {
        read_mirror_line(bytes)
    }

    fn obey<K: Sink>(&mut self, line: &MirrorLine, sink: &mut K) -> LineOutcome {
        mirror_grammar_holds_both_ways();
        match answer(&mut self.mirror, &mut self.side, line) {
            Ok(reply) => tell(&mut self.mirror, &reply, sink, &mut self.buffer),
            Err(BoardRequest::Nothing) => LineOutcome::Done,
            Err(BoardRequest::Power) => obey_power(
                &mut self.mirror,
                self.side,
                sink,
                &mut self.buffer,
            ),
        }
    }

    fn close<K: Sink>(&self, _sink: &mut K) -> Result<(), Failed> {
        Ok(())
    }

    ghost long = { long_mirror };

    ghost stays_ready = { λ start s turns did. ready_since start s.mirror s.side turns did };
}
