// The body to reply to.
#![tactic(auto)]

ghost use Rattle.std.specs.Prelude.{◌≡◌};
ghost use Rattle.octets.specs.Believed.Choice.{pick};
ghost use Rattle.reply.specs.Believed.Reply.{left_for_from};

use octets::classes::CLASSES;
use octets::numbers::MESSAGE_LIMIT;
use scanner::Next;

// Whether a Reply-To body is left for From's: at most as long as a message, with no symbol and no fault.
pub fn left_for_from(reply: &[u8]) -> bool
    ensures { result ≡ left_for_from reply.now }
{
    reply.len() <= MESSAGE_LIMIT && matches!(scanner::next_by(&CLASSES, reply, 0), Next::Ended)
}

// One of the two lent bodies itself, whole: From's where Reply-To's is left for it, else Reply-To's. It refuses nothing.
pub fn reply_body<'a>(reply: &'a [u8], from: &'a [u8]) -> &'a [u8]
    ensures { result ≡ pick (left_for_from reply.now) from.entry reply.entry }
{
    if left_for_from(reply) { from } else { reply }
}
