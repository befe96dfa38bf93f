//! What earlier lines of a trace say of later ones.
ghost use Rattle.std.specs.Prelude.{◌≡◌};
ghost use Rattle.rws_trace.specs.Script.{may_come, order_after};

use rws_board::Event;

/// What earlier lines say of later ones: sessions begin with rising numbers, and the clock never goes back.
#[derive(Clone, Copy)]
pub struct Order {
    /// The session that the last `accept` or `begin` line began, or 0.
    pub begun: u32,
    /// What the last `clock` line showed, or 0.
    pub clock: u64,
}

impl Order {
    /// Whether the next line may say this event.
    pub fn allows(&self, event: &Event) -> bool
        ensures { result ≡ may_come self.now event.now }
    {
        match event {
            Event::Accept { session, .. } => self.begun < *session,
            Event::Begin { session, .. } => self.begun < *session,
            Event::Clock { now_ms } => self.clock <= *now_ms,
            _ => true,
        }
    }

    /// The order behind this event.
    pub fn after(self, event: &Event) -> Order
        ensures { result ≡ order_after self event.now }
    {
        match event {
            Event::Accept { session, .. } => self.with_session(*session),
            Event::Begin { session, .. } => self.with_session(*session),
            Event::Clock { now_ms } => Order {
                begun: self.begun,
                clock: *now_ms,
            },
            _ => self,
        }
    }

    fn with_session(self, begun: u32) -> Order
        ensures { result ≡ record self { begun = begun } }
    {
        Order {
            begun,
            clock: self.clock,
        }
    }
}
