//! Filters, written (RFC 4511, section 4.5.1.7).

ghost use Rattle.std.specs.Prelude.{◌≡◌, ◌++◌, true, map, OnOk, OnErr};
ghost use Rattle.std.specs.List.{flat_map};
ghost use Rattle.ldap_ber.specs.Canonical.{element};
ghost use Rattle.ldap_ber.specs.Writer.{after_bytes};
ghost use Rattle.ldap_filter.specs.FilterTree.{tree_of, trees};
ghost use Rattle.ldap_filter.specs.Pieces.{has_piece};
ghost use Rattle.ldap_parts.specs.Components.{string_octets};
ghost use Rattle.ldap_parts.specs.Filters.{pieces_octets, assertion_octets, substrings_octets, filter_octets, filters_octets, have_piece, all_have_piece};

use crate::component::put_option;
use crate::lists;
use ldap_ber::{NoMemory, Octets, Writer};
use ldap_filter::{Filter, Pieces};

/// Writes a filter (RFC 4511, section 4.5.1.7). It is `NoMemory` where memory runs out, and the
/// writer is as before.
#[cycle(writing)]
pub fn put_filter(writer: &mut Writer, filter: &Filter) -> Result<(), NoMemory>
    ensures ok { OnOk result
        (writer.new ≡ after_bytes writer.old (filter_octets (tree_of filter.now))) }
    ensures pieces { OnOk result (have_piece (tree_of filter.now) ≡ true) }
    ensures err { OnErr result (writer.new ≡ writer.old) }
{
    match filter {
        Filter::And(parts) => {
            writer.begin(0xA0)?;
            let body = put_each(writer, parts.list());
            writer.end_after(body)
        }
        Filter::Or(parts) => {
            writer.begin(0xA1)?;
            let body = put_each(writer, parts.list());
            writer.end_after(body)
        }
        Filter::Not(part) => {
            writer.begin(0xA2)?;
            let body = put_filter(writer, part);
            writer.end_after(body)
        }
        Filter::Equal(item) => put_assertion(writer, 0xA3, &item.name, &item.value),
        Filter::Substrings(name, pieces) => put_substrings(writer, name, pieces),
        Filter::AtLeast(name, value) => put_assertion(writer, 0xA5, name, value),
        Filter::AtMost(name, value) => put_assertion(writer, 0xA6, name, value),
        Filter::Present(name) => writer.octets(0x87, name.as_slice()),
        Filter::Approx(item) => put_assertion(writer, 0xA8, &item.name, &item.value),
        Filter::Extensible(body) => writer.octets(0xA9, body.as_slice()),
    }
}

#[cycle(writing)]
fn put_each(writer: &mut Writer, filters: &[Filter]) -> Result<(), NoMemory>
    ensures ok { OnOk result (writer.new
        ≡ after_bytes writer.old (filters_octets (trees (map tree_of filters.now)))) }
    ensures pieces { OnOk result (all_have_piece (trees (map tree_of filters.now)) ≡ true) }
    ensures opened { OnErr result (writer.new.opened ≡ writer.old.opened) }
{
    for filter in filters {
        put_filter(writer, filter)?;
    }
    Ok(())
}

/// Writes a type and a value as an element with this tag (RFC 4511, section 4.1.6). It is
/// `NoMemory` where memory runs out, and the writer is as before.
pub fn put_assertion(
    writer: &mut Writer,
    tag: u8,
    name: &Octets,
    value: &Octets,
) -> Result<(), NoMemory>
    ensures ok { OnOk result
        (writer.new ≡ after_bytes writer.old (assertion_octets tag (name.now, value.now))) }
    ensures err { OnErr result (writer.new ≡ writer.old) }
{
    writer.begin(tag)?;
    let body = put_pair(writer, name, value);
    writer.end_after(body)
}

fn put_pair(writer: &mut Writer, name: &Octets, value: &Octets) -> Result<(), NoMemory>
    ensures ok { OnOk result
        (writer.new ≡ after_bytes writer.old (element 4 name.now ++ element 4 value.now)) }
    ensures opened { OnErr result (writer.new.opened ≡ writer.old.opened) }
{
    writer.octets(0x04, name.as_slice())?;
    writer.octets(0x04, value.as_slice())
}

fn put_substrings(writer: &mut Writer, name: &Octets, pieces: &Pieces) -> Result<(), NoMemory>
    ensures ok { OnOk result (writer.new ≡ after_bytes writer.old (substrings_octets
        (name.now, (pieces.now.initial, (pieces.now.middle, pieces.now.last))))) }
    ensures pieces { has_piece pieces.now.initial pieces.now.middle pieces.now.last ≡ true }
    ensures err { OnErr result (writer.new ≡ writer.old) }
{
    writer.begin(0xA4)?;
    let body = put_substrings_body(writer, name, pieces);
    writer.end_after(body)
}

fn put_substrings_body(writer: &mut Writer, name: &Octets, pieces: &Pieces) -> Result<(), NoMemory>
    ensures ok { OnOk result (writer.new ≡ after_bytes writer.old (element 4 name.now
        ++ pieces_octets (pieces.now.initial, (pieces.now.middle, pieces.now.last)))) }
    ensures opened { OnErr result (writer.new.opened ≡ writer.old.opened) }
{
    writer.octets(0x04, name.as_slice())?;
    put_pieces(writer, pieces)
}

fn put_pieces(writer: &mut Writer, pieces: &Pieces) -> Result<(), NoMemory>
    ensures ok { OnOk result (writer.new ≡ after_bytes writer.old
        (pieces_octets (pieces.now.initial, (pieces.now.middle, pieces.now.last)))) }
    ensures err { OnErr result (writer.new ≡ writer.old) }
{
    writer.begin(0x30)?;
    let body = put_each_piece(writer, pieces);
    writer.end_after(body)
}

fn put_each_piece(writer: &mut Writer, pieces: &Pieces) -> Result<(), NoMemory>
    ensures ok { OnOk result (writer.new ≡ after_bytes writer.old
        (string_octets 128 pieces.now.initial ++ (flat_map (element 129) pieces.now.middle
        ++ string_octets 130 pieces.now.last))) }
    ensures opened { OnErr result (writer.new.opened ≡ writer.old.opened) }
{
    put_option(writer, 0x80, &pieces.initial)?;
    lists::put_each(writer, 0x81, pieces.middle.list())?;
    put_option(writer, 0x82, &pieces.last)
}
