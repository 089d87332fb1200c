//! The timer of one connection.

ghost use Rattle.std.specs.Prelude.{◌≡◌, ◌≢◌, ◌+◌, ◌<◌, ◌≤◌, ◌↔◌, ℕ, IsTrue};
ghost use Rattle.keepalive.specs.Times.{IsDead, IsSendDue, due_at};

use rs_wire::Amount;
use std::marker::Model;

/// What is due at a moment.
#[derive(Clone, Copy, Debug, PartialEq, Eq)]
pub enum Due {
    /// The peer counts as dead: nothing came since this moment, in milliseconds, and that is a
    /// lifetime ago or more.
    Dead(u64),
    /// A KEEPALIVE is to be sent.
    Send,
    /// Nothing.
    Nothing,
}

/// The timer of one connection. Contracts see its times.
#[derive(Clone, Copy, Debug, PartialEq, Eq)]
pub struct Timer {
    /// Milliseconds between two KEEPALIVEs.
    interval: Amount,
    /// Milliseconds without an arrival after which the peer counts as dead.
    lifetime: Amount,
    /// Whether this end sends KEEPALIVEs.
    sends: bool,
    /// The moment of the last arrival.
    arrival: u64,
    /// The moment of the last sending.
    sending: u64,
    /// The last moment that was handed in.
    moment: u64,
}

impl Model for Timer {
    ghost use Rattle.keepalive.specs.Times.{Times};

    ghost Value = { Times };

    ghost view = { λ t. record {
      interval = t.interval;
      lifetime = t.lifetime;
      sends = t.sends;
      arrival = t.arrival;
      sending = t.sending;
      moment = t.moment;
    } };

    ghost inverse = { λ t. record {
      interval = t.interval;
      lifetime = t.lifetime;
      sends = t.sends;
      arrival = t.arrival;
      sending = t.sending;
      moment = t.moment;
    } };
}

/// Whether a span of milliseconds has passed since a moment.
fn has_passed(since: u64, span: Amount, now: u64) -> bool
    ensures { IsTrue result ↔ (since + span ≤ now) }
{
    now >= since && now - since >= u64::from(span.get())
}

// The end of a span of milliseconds that begins at a moment.
fn end_of(since: u64, span: Amount) -> u128
    ensures { result ≡ since + span }
{
    u128::from(since) + u128::from(span.get())
}

impl Timer {
    /// The timer of a connection that is opened at the moment `now`, in milliseconds, with the
    /// interval between two KEEPALIVEs and the lifetime, in milliseconds. `sends` says whether this
    /// end sends KEEPALIVEs: a client does, and a server only answers them (RSocket 1.0, "Keepalive
    /// Frame"). The opening counts as an arrival and as a sending.
    pub fn new(interval: Amount, lifetime: Amount, now: u64, sends: bool) -> Timer
        ensures { result ≡ record {
          interval = interval;
          lifetime = lifetime;
          sends = sends;
          arrival = now;
          sending = now;
          moment = now;
        } }
    {
        Timer {
            interval,
            lifetime,
            sends,
            arrival: now,
            sending: now,
            moment: now,
        }
    }

    /// Notes that something came, at the last moment that was handed in.
    pub fn came(&mut self)
        ensures { self.new ≡ record self.old { arrival = self.old.moment } }
    {
        self.arrival = self.moment;
    }

    /// Notes that a KEEPALIVE was sent, at the last moment that was handed in.
    pub fn sent(&mut self)
        ensures { self.new ≡ record self.old { sending = self.old.moment } }
    {
        self.sending = self.moment;
    }

    /// The last moment that was handed in, in milliseconds.
    pub fn moment(&self) -> u64
        ensures { result ≡ self.now.moment }
    {
        self.moment
    }

    /// What is due at the moment `now`, in milliseconds: [`Due::Dead`] with the last arrival, exactly
    /// where that and the lifetime are at most `now` together; else [`Due::Send`], exactly where this
    /// end sends KEEPALIVEs, and the last sending and the interval are at most `now` together; else
    /// [`Due::Nothing`].
    pub fn due(&self, now: u64) -> Due
        ensures due { result ≡ due_at self.now now }
        ensures dead { (result ≡ Due.Dead self.now.arrival) ↔ IsDead self.now now }
        ensures send { (result ≡ Due.Send) ↔ IsSendDue self.now now }
    {
        if has_passed(self.arrival, self.lifetime, now) {
            return Due::Dead(self.arrival);
        }
        if self.sends && has_passed(self.sending, self.interval, now) {
            return Due::Send;
        }
        Due::Nothing
    }

    /// The first moment, in milliseconds, at which something is due as things stand: [`Timer::due`]
    /// answers [`Due::Nothing`] exactly at each earlier one. It may lie above every `u64`.
    pub fn next_due(&self) -> u128
        ensures before { (now : ℕ) → now < result → due_at self.now now ≡ Due.Nothing }
        ensures from { (now : ℕ) → result ≤ now → due_at self.now now ≢ Due.Nothing }
    {
        let dead = end_of(self.arrival, self.lifetime);
        let send = end_of(self.sending, self.interval);
        if self.sends && send < dead {
            send
        } else {
            dead
        }
    }

    /// Takes the moment `now`, in milliseconds, and says what is due at it, as [`Timer::due`] does.
    pub fn tick(&mut self, now: u64) -> Due
        ensures due { result ≡ due_at self.old now }
        ensures told { self.new ≡ record self.old { moment = now } }
    {
        let due = self.due(now);
        self.moment = now;
        due
    }
}
