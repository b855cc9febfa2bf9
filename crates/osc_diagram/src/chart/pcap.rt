//! A capture of the network, for Wireshark.
ghost use Rattle.std.specs.Prelude.{◌≡◌, ◌≤◌, ◌<◌, ◌++◌, ◌%◌, IfOk, OnOk, length, take, true};
ghost use Rattle.osc_diagram.specs.Chart.Capture as spec;

use crate::chart::bytes::{add_four, add_two};
use crate::chart::chart::{Arrow, Mark};
use osc_model::Peer;
use std::alloc::{AllocError, Global};

/// The datagrams of a chart as a file of libpcap: a header, and then a record for each arrow, in order, with its moment, as UDP between the
/// addresses of its ends: over IPv4 where both are of IPv4, and over IPv6 (RFC 8200) where one isn't. Zones aren't there, nor what is at nodes.
pub fn capture(alloc: Global, marks: &[Mark]) -> Result<Vec<u8>, AllocError>
    ensures { IfOk result (λ file. file.items ≡ spec.capture marks.now) }
{
    let mut file = file_header(alloc)?;
    for mark in marks {
        add_mark(alloc, &mut file, mark)?;
    }
    Ok(file)
}

fn file_header(alloc: Global) -> Result<Vec<u8>, AllocError>
    ensures { IfOk result (λ file. file.items ≡ spec.file_header) }
{
    Vec::from_slice(
        alloc,
        &[
            0xa1, 0xb2, 0xc3, 0xd4, 0, 2, 0, 4, 0, 0, 0, 0, 0, 0, 0, 0, 0, 0, 0xff, 0xff, 0, 0, 0,
            101,
        ],
    )
}

// The record of an arrow, and none of anything else.
fn add_mark(alloc: Global, file: &mut Vec<u8>, mark: &Mark) -> Result<(), AllocError>
    ensures { OnOk result (file.new.items ≡ file.old.items ++ spec.of_mark mark.now) }
{
    match mark {
        Mark::Arrow(arrow) => add_packet(alloc, file, arrow),
        Mark::Note { .. } | Mark::Time(_) => Ok(()),
    }
}

fn add_packet(alloc: Global, file: &mut Vec<u8>, arrow: &Arrow) -> Result<(), AllocError>
    ensures { OnOk result (file.new.items ≡ file.old.items ++ spec.record_of arrow.now (spec.packet arrow.now)) }
{
    let packet = packet(alloc, arrow)?;
    add_record(file, arrow, &packet)
}

#[tactic(auto, unfolding(crate::specs::Chart::Capture::record_of))]
fn add_record(file: &mut Vec<u8>, arrow: &Arrow, packet: &[u8]) -> Result<(), AllocError>
    ensures { OnOk result (file.new.items ≡ file.old.items ++ spec.record_of arrow.now packet.now) }
{
    let kept = front(packet, 65535);
    add_stamp(file, arrow)?;
    add_four(file, kept.len() as u64)?;
    add_four(file, packet.len() as u64)?;
    file.extend_from_slice(kept)
}

#[tactic(auto, unfolding(crate::specs::Chart::Capture::stamp))]
fn add_stamp(file: &mut Vec<u8>, arrow: &Arrow) -> Result<(), AllocError>
    ensures { OnOk result (file.new.items ≡ file.old.items ++ spec.stamp arrow.now) }
{
    let ms = arrow.moment.ms;
    add_four(file, ms / 1000)?;
    add_four(file, ms % 1000 * 1000)
}

#[tactic(auto, unfolding(crate::specs::Chart::Capture::packet))]
fn packet(alloc: Global, arrow: &Arrow) -> Result<Vec<u8>, AllocError>
    ensures { IfOk result (λ packet. packet.items ≡ spec.packet arrow.now) }
{
    let checksum = udp_checksum(alloc, arrow)?;
    let mut packet = ip_header(alloc, arrow)?;
    add_udp_header(&mut packet, arrow, checksum)?;
    packet.extend_from_slice(carried(arrow))?;
    Ok(packet)
}

// Whether both of its ends are of IPv4.
fn is_of_v4(arrow: &Arrow) -> bool
    ensures { result ≡ spec.is_of_v4 arrow.now }
{
    arrow.from.is_v4() && arrow.to.is_v4()
}

// The most that a datagram of UDP carries, over IPv4 or over IPv6.
fn most_carried(arrow: &Arrow) -> usize
    ensures number { result ≡ spec.most_carried arrow.now }
    ensures few { result ≤ 65527 }
{
    if is_of_v4(arrow) { 65507 } else { 65527 }
}

// What of it a datagram of UDP can carry.
#[tactic(auto, unfolding(crate::specs::Chart::Capture::carried))]
fn carried(arrow: &Arrow) -> &[u8]
    ensures bytes { result.now ≡ spec.carried arrow.now }
    ensures few { length result.now ≤ 65527 }
{
    front(arrow.bytes.as_slice(), most_carried(arrow))
}

// At most this number of bytes, from the first on.
fn front(bytes: &[u8], most: usize) -> &[u8]
    ensures bytes { result.now ≡ take most bytes.now }
    ensures few { length result.now ≤ most }
{
    if bytes.len() > most {
        &bytes[..most]
    } else {
        bytes
    }
}

fn udp_length(arrow: &Arrow) -> u64
    ensures length { result ≡ spec.udp_length arrow.now }
    ensures few { result ≤ 65535 }
{
    8 + carried(arrow).len() as u64
}

#[tactic(auto, unfolding(crate::specs::Chart::Capture::udp_header))]
fn add_udp_header(file: &mut Vec<u8>, arrow: &Arrow, checksum: u64) -> Result<(), AllocError>
    ensures { OnOk result (file.new.items ≡ file.old.items ++ spec.udp_header arrow.now checksum) }
{
    add_two(file, arrow.from.port as u64)?;
    add_two(file, arrow.to.port as u64)?;
    add_two(file, udp_length(arrow))?;
    add_two(file, checksum)
}

fn ip_header(alloc: Global, arrow: &Arrow) -> Result<Vec<u8>, AllocError>
    ensures { IfOk result (λ header. header.items ≡ spec.ip_header arrow.now) }
{
    if is_of_v4(arrow) {
        let checksum = v4_checksum(alloc, arrow)?;
        v4_header(alloc, arrow, checksum)
    } else {
        v6_header(alloc, arrow)
    }
}

fn pseudo_header(alloc: Global, arrow: &Arrow) -> Result<Vec<u8>, AllocError>
    ensures { IfOk result (λ header. header.items ≡ spec.pseudo_header arrow.now) }
{
    if is_of_v4(arrow) {
        v4_pseudo_header(alloc, arrow)
    } else {
        v6_pseudo_header(alloc, arrow)
    }
}

#[tactic(auto, unfolding(crate::specs::Chart::Capture::udp_checksum))]
fn udp_checksum(alloc: Global, arrow: &Arrow) -> Result<u64, AllocError>
    ensures { IfOk result (λ checksum. checksum ≡ spec.udp_checksum arrow.now) }
{
    let summed = udp_summed(alloc, arrow)?;
    Ok(complement(&summed))
}

// What the checksum of UDP is over.
fn udp_summed(alloc: Global, arrow: &Arrow) -> Result<Vec<u8>, AllocError>
    ensures { IfOk result (λ summed. summed.items ≡ spec.pseudo_header arrow.now ++ spec.udp_header arrow.now 0 ++ spec.carried arrow.now) }
{
    let mut summed = pseudo_header(alloc, arrow)?;
    add_udp_header(&mut summed, arrow, 0)?;
    summed.extend_from_slice(carried(arrow))?;
    Ok(summed)
}

// The four bytes of an address of IPv4.
#[tactic(auto, unfolding(crate::specs::Chart::Capture::v4_of))]
fn v4_of(peer: Peer) -> [u8; 4]
    ensures { result ≡ spec.v4_of peer }
{
    let [_, _, _, _, _, _, _, _, _, _, _, _, a, b, c, d] = peer.address;
    [a, b, c, d]
}

#[tactic(auto, unfolding(crate::specs::Chart::Capture::v4_header))]
fn v4_header(alloc: Global, arrow: &Arrow, checksum: u64) -> Result<Vec<u8>, AllocError>
    ensures { IfOk result (λ header. header.items ≡ spec.v4_header arrow.now checksum) }
{
    let mut header = Vec::from_slice(alloc, &[69, 0])?;
    add_two(&mut header, 20 + udp_length(arrow))?;
    header.extend_from_slice(&[0, 0, 0, 0, 64, 17])?;
    add_two(&mut header, checksum)?;
    header.extend_from_slice(&v4_of(arrow.from))?;
    header.extend_from_slice(&v4_of(arrow.to))?;
    Ok(header)
}

#[tactic(auto, unfolding(crate::specs::Chart::Capture::v4_checksum))]
fn v4_checksum(alloc: Global, arrow: &Arrow) -> Result<u64, AllocError>
    ensures { IfOk result (λ checksum. checksum ≡ spec.v4_checksum arrow.now) }
{
    let header = v4_header(alloc, arrow, 0)?;
    Ok(complement(&header) % 65535)
}

#[tactic(auto, unfolding(crate::specs::Chart::Capture::v4_pseudo_header))]
fn v4_pseudo_header(alloc: Global, arrow: &Arrow) -> Result<Vec<u8>, AllocError>
    ensures { IfOk result (λ header. header.items ≡ spec.v4_pseudo_header arrow.now) }
{
    let mut header = Vec::from_slice(alloc, &v4_of(arrow.from))?;
    header.extend_from_slice(&v4_of(arrow.to))?;
    header.extend_from_slice(&[0, 17])?;
    add_two(&mut header, udp_length(arrow))?;
    Ok(header)
}

#[tactic(auto, unfolding(crate::specs::Chart::Capture::v6_header))]
fn v6_header(alloc: Global, arrow: &Arrow) -> Result<Vec<u8>, AllocError>
    ensures { IfOk result (λ header. header.items ≡ spec.v6_header arrow.now) }
{
    let mut header = Vec::from_slice(alloc, &[96, 0, 0, 0])?;
    add_two(&mut header, udp_length(arrow))?;
    header.extend_from_slice(&[17, 64])?;
    header.extend_from_slice(&arrow.from.address)?;
    header.extend_from_slice(&arrow.to.address)?;
    Ok(header)
}

#[tactic(auto, unfolding(crate::specs::Chart::Capture::v6_pseudo_header))]
fn v6_pseudo_header(alloc: Global, arrow: &Arrow) -> Result<Vec<u8>, AllocError>
    ensures { IfOk result (λ header. header.items ≡ spec.v6_pseudo_header arrow.now) }
{
    let mut header = Vec::from_slice(alloc, &arrow.from.address)?;
    header.extend_from_slice(&arrow.to.address)?;
    add_four(&mut header, udp_length(arrow))?;
    header.extend_from_slice(&[0, 0, 0, 17])?;
    Ok(header)
}

// The complement of their sum in ones' complement.
fn complement(bytes: &[u8]) -> u64
    ensures { result ≡ spec.complement bytes.now }
{
    65535 - sum_of_pairs(bytes)
}

// Their sum, modulo 65535.
fn sum_of_pairs(bytes: &[u8]) -> u64
    ensures { result ≡ spec.sum_of_pairs true bytes.now % 65535 }
{
    let mut sum: u64 = 0;
    let mut high = true;
    for byte in bytes {
        sum = (sum + weight(high, *byte)) % 65535;
        high = !high;
    }
    sum
}

fn weight(high: bool, byte: u8) -> u64
    ensures counts { result ≡ spec.weight high byte }
    ensures few { result < 65536 }
{
    if high { 256 * byte as u64 } else { byte as u64 }
}
