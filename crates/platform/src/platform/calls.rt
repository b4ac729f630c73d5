ghost use Rattle.std.specs.Prelude.{◌≡◌, ℕ, ◌+◌, ◌^◌, ◌<◌, ◌≤◌, max, true, length, is_err, Some, None, MatchResult, slice_set};
ghost use Rattle.bus.specs.Answers.{status_of, outcome_of};
ghost use Rattle.bus.specs.Payload.{raw, access, access_of};
ghost use Rattle.bus.specs.declared.kinds.Refusal.TheVariants.{UnknownPort};
ghost use Rattle.protocol.specs.Settings.{asked};
ghost use Rattle.protocol.specs.Runs.{blocking, sync, served};
ghost use Rattle.protocol.specs.Rules.{Answered, Blocked as BlockedBy, fresh, start_of, sync_point, blocking_refusal};
ghost use Rattle.platform.specs.States.{state, blocking_answer, sync_answer};

use super::Platform;
use crate::answers::Blocked;
use crate::port::Port;
use bus::{AccessError, Fields, Payload, Refusal, Target, serve};
use protocol::Settings;

// 2^40: no call starts later.
const LAST_START: u64 = 1_099_511_627_776;

impl<T: Target> Platform<T> {
    // A new platform over an interconnect.
    pub fn new(settings: Settings, target: T) -> Platform<T>
        ensures state { state T.Target.map T.Target.meter result ≡ fresh (asked settings) (T.Target.map target) (T.Target.meter target) }
        ensures target { result.target ≡ target }
    {
        Platform {
            settings,
            now: settings.start,
            locals: [settings.start; 8],
            target,
        }
    }

    // The port of a number, if the platform has it.
    fn port(&self, number: u64) -> Result<Port, Refusal>
        ensures { MatchResult result (λ port. (port.index ≡ number) × (number < self.entry.now.settings.ports)) (λ e. (self.entry.now.settings.ports ≤ number) × (e ≡ UnknownPort)) }
    {
        if number >= self.settings.ports {
            return Err(Refusal::UnknownPort);
        }
        Ok(Port {
            index: number as usize,
        })
    }

    // When a call of the port takes place.
    fn start_of(&self, port: Port) -> u64
        ensures { result ≡ start_of (state T.Target.map T.Target.meter self.entry.now) port.index }
    {
        self.now.max(self.locals[port.index])
    }

    // The next sync point after the platform's time.
    fn sync_point(&self) -> u64
        ensures { result ≡ sync_point self.entry.now.now self.entry.now.settings.quantum }
    {
        (self.now / self.settings.quantum + 1) * self.settings.quantum
    }

    // The port and the payload of a blocking call with a buffer of that size, or the first refusal that it earns.
    fn admit(
        &self,
        number: u64,
        fields: Fields<'_>,
        size: usize,
    ) -> Result<(Port, Payload), Refusal>
        ensures { MatchResult result (λ a. (blocking_refusal (state T.Target.map T.Target.meter self.entry.now) number (raw fields.entry) size ≡ None) × (a.0.index ≡ number) × (access a.1 ≡ access_of (raw fields.entry))) (λ e. blocking_refusal (state T.Target.map T.Target.meter self.entry.now) number (raw fields.entry) size ≡ Some e) }
    {
        let port = self.port(number)?;
        let payload = Payload::try_from(fields)?;
        if size as u64 != fields.length {
            return Err(Refusal::WrongDataLength);
        }
        let start = self.start_of(port);
        if start > LAST_START {
            return Err(Refusal::TooLate);
        }
        if start >= self.sync_point() {
            return Err(Refusal::PastSyncPoint);
        }
        Ok((port, payload))
    }

    // What a blocking call comes to that was answered so at its start: the port's local time moves on.
    fn settle(&mut self, port: Port, start: u64, served: Result<u64, AccessError>) -> Blocked
        requires { (start ≤ 2 ^ 40) × ((outcome_of served).delay ≤ 64000000) }
        ensures local { result.local ≡ start + (outcome_of served).delay }
        ensures status { status_of result.status ≡ (outcome_of served).status }
        ensures locals { self.exit.now.locals ≡ slice_set self.entry.now.locals port.index result.local }
        ensures settings { self.exit.now.settings ≡ self.entry.now.settings }
        ensures time { self.exit.now.now ≡ self.entry.now.now }
        ensures target { self.exit.now.target ≡ self.entry.now.target }
    {
        let local = start + served.unwrap_or(0);
        self.locals[port.index] = local;
        Blocked {
            local,
            status: served.map(|_| ()),
        }
    }

    // Serves the payload of a call that no check refuses.
    fn serve_now(&mut self, port: Port, payload: &Payload, buffer: &mut [u8]) -> Blocked
        requires early { start_of (state T.Target.map T.Target.meter self.now) port.index ≤ 2 ^ 40 }
        requires whole { length buffer.old ≡ payload.now.length }
        ensures { BlockedBy (state T.Target.map T.Target.meter self.entry.now) port.index (access payload.now) buffer.old (served result.local (status_of result.status) buffer.new) (state T.Target.map T.Target.meter self.exit.now) }
    {
        let start = self.start_of(port);
        let served = serve(&mut self.target, payload, buffer);
        self.settle(port, start, served)
    }

    // Serves a payload at once, at the port's start time. A WRITE takes its data from the buffer, a READ fills it.
    pub fn blocking(
        &mut self,
        port: u64,
        fields: Fields<'_>,
        buffer: &mut [u8],
    ) -> Result<Blocked, Refusal>
        ensures rule { Answered (state T.Target.map T.Target.meter self.entry.now) (blocking port (raw fields.entry) buffer.old) (blocking_answer result buffer.new) (state T.Target.map T.Target.meter self.exit.now) }
        ensures refused_moves_nothing { is_err result ≡ true → (self.exit.now ≡ self.entry.now) × (buffer.new ≡ buffer.old) }
    {
        let (port, payload) = self.admit(port, fields, buffer.len())?;
        Ok(self.serve_now(port, &payload, buffer))
    }

    // Moves the platform's time up to the port's local time.
    pub fn sync(&mut self, port: u64) -> Result<u64, Refusal>
        ensures rule { Answered (state T.Target.map T.Target.meter self.entry.now) (sync port) (sync_answer result) (state T.Target.map T.Target.meter self.exit.now) }
        ensures refused_moves_nothing { is_err result ≡ true → self.exit.now ≡ self.entry.now }
    {
        let port = self.port(port)?;
        self.now = self.start_of(port);
        Ok(self.now)
    }
}
