//! The frame of a message, which its first bytes announce: the tag of a SEQUENCE, and a definite
//! length in at most four octets after its first (RFC 4511, section 5.1).

ghost use Rattle.std.specs.Prelude.{◌≡◌, ◌≤◌};
ghost use Rattle.ldap_messages.specs.Frame.{framed, frame_at};

use ldap_ber::number_of;

/// The most octets of a message's body.
const LONGEST: usize = 4_194_304;

/// What the bytes so far announce.
#[derive(Clone, Copy, Debug, PartialEq, Eq)]
pub(crate) enum Frame {
    /// More bytes have to come.
    Partial,
    /// The octet at this place begins no frame.
    Refused(usize),
    /// A body that is too long.
    Long,
    /// A whole frame of n octets.
    Held(usize),
}

/// The frame at the start of the bytes.
pub(crate) fn frame_of(bytes: &[u8]) -> Frame
    ensures { result ≡ frame_at bytes.now }
{
    match bytes {
        [] => Frame::Partial,
        [tag, more @ ..] => match more {
            [] => if *tag == 0x30 {
                Frame::Partial
            } else {
                Frame::Refused(0)
            },
            [first, octets @ ..] => {
                if *tag != 0x30 {
                    return Frame::Refused(0);
                }
                if *first < 128 {
                    return framed(2, *first as usize, bytes.len());
                }
                if *first == 128 || 132 < *first {
                    return Frame::Refused(1);
                }
                let count = *first as usize - 128;
                if octets.len() < count {
                    return Frame::Partial;
                }
                framed(count + 2, number_of(octets.split_at(count).0), bytes.len())
            }
        },
    }
}

/// The frame with a header and a body of these lengths, of which n octets came.
fn framed(header: usize, count: usize, so_far: usize) -> Frame
    requires { header ≤ 6 }
    ensures { result ≡ framed header count so_far }
{
    if LONGEST < count {
        return Frame::Long;
    }
    if so_far < header + count {
        return Frame::Partial;
    }
    Frame::Held(header + count)
}
