// What the lines ask of the streams and of the hub, which go from line to line.
use answers::Returned;
use burst::BurstNumber;
use chart::Values;
use hub::Hub;
use stream::receiver::Receiver;
use stream::sender::{Sender, Sent};
use words::{Answer, Call, HubCall};

// The two streams that the lines speak of, and the hub.
#[derive(Drop)]
pub struct Streams {
    sender: Sender,
    receiver: Receiver,
    hub: Hub,
}

impl Streams {
    // Both streams, of which nothing is sent and nothing taken, and the hub, at which nobody stands.
    pub fn fresh() -> Self {
        Self {
            sender: Sender::fresh(),
            receiver: Receiver::fresh(),
            hub: Hub::fresh(),
        }
    }

    // The answer to a call, with a number and bits.
    pub fn call(&mut self, asked: Call, number: u16, read: &[u8], written: &mut [u8]) -> Answer {
        match asked {
            Call::Send => self.send(read, written),
            Call::End => self.end(written),
            Call::Take => self.take(number, read, written),
            Call::Fresh => {
                *self = Self::fresh();
                Answer::fresh()
            }
            Call::Totals => Answer::from(self.receiver.totals()),
        }
    }

    // send D
    fn send(&mut self, d: &[u8], e: &mut [u8]) -> Answer {
        let sent = self.sender.send(d, e);
        self.after(sent, e.len())
    }

    // end
    fn end(&mut self, e: &mut [u8]) -> Answer {
        let sent = self.sender.end(e);
        self.after(sent, e.len())
    }

    // What is said of a send or an end.
    fn after(&mut self, sent: Sent, bits: usize) -> Answer {
        self.sender = sent.next;
        Answer::of_returned(Returned::from(sent.told), bits)
    }

    // take B E
    fn take(&mut self, number: u16, e: &[u8], d: &mut [u8]) -> Answer {
        let received = self.receiver.take(BurstNumber(u32::from(number)), e, d);
        self.receiver = received.next;
        Answer::from(Values::from(received.told))
    }

    // The answer to what is asked of the hub, with a number and bits; the number is the identity that is enrolled, or the place that is freed.
    pub fn call_hub(
        &mut self,
        asked: HubCall,
        number: u16,
        read: &[u8],
        written: &mut [u8],
    ) -> Answer {
        let answered = match asked {
            HubCall::Enrol => self.hub.enrol(u64::from(number)),
            HubCall::Remove => self.hub.remove(u64::from(number)),
            HubCall::Hear => self.hub.hear(read, written),
        };
        self.hub = answered.next;
        Answer::of_said(answered.said, written.len())
    }
}
