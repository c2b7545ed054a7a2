// Worked files, whose packets no clause says by value. Hash values were computed outside of this program.
use crate::expect::{holds, same};
use fib_addr::Addr;
use fib_capture::{Capture, CaptureError, Packet, Spans, flow_hash, laws};
use std::alloc::{AllocError, Global};
use std::process::Abort;
use std::test::Fail;

/// File headers: lowest byte first with microseconds, of raw IP, of Ethernet and of another link; highest byte first with
/// nanoseconds, of raw IP.
const RAW: &str = "d4c3b2a1 0200 0400 00000000 00000000 ffff0000 65000000";

const ETHERNET: &str = "d4c3b2a1 0200 0400 00000000 00000000 ffff0000 01000000";

const OTHER: &str = "d4c3b2a1 0200 0400 00000000 00000000 ffff0000 71000000";

const BIG_RAW: &str = "a1b23c4d 0002 0004 00000000 00000000 0000ffff 00000065";
/// Another file's first bytes, with another link.
const UNKNOWN: &str = "d4c3b2a2 0200 0400 00000000 00000000 ffff0000 71000000";

/// Record headers of 20 captured bytes, in both byte orders.
const RECORD: &str = "00000000 00000000 14000000 14000000";

const BIG_RECORD: &str = "00000000 00000000 00000014 00000014";

/// An ICMP packet without data, from 1.2.3.4 to 10.0.0.9.
const PING: &str = "45000014 00000000 40010000 01020304 0a000009";

/// Nine packets of a loopback interface, written by tcpdump 4.99 with a snap length of 48: TCP, UDP, ICMP, options, fragments.
const FIRST_48_BYTES: [&str; 10] = [
    "d4c3b2a10200040000000000000000003000000001000000",
    "fbde086b4d6f0700300000004a000000 00000000000000000000000008004500003c0cc8400040062fea7f0000017f000009b3101b61ef424de400000000a002",
    "fbde086b5d6f0700300000004a000000 00000000000000000000000008004500003c0000400040063cb27f0000097f0000011b61b310439d9f62ef424de5a012",
    "fbde086b6d6f07003000000042000000 0000000000000000000000000800450000340cc9400040062ff17f0000017f000009b3101b61ef424de5439d9f638010",
    "fbde086b986f07002f0000002f000000 0000000000000000000000000800450000210f17400040112db07f0000027f00000314e90035000dfe2368656c6c6f",
    "fbde086ba36f0700300000004b000000 000000000000000000000000080045c0003dea5c00004001919e7f0000037f0000020303a5db00000000450000210f17",
    "fbde086bd06f07003000000031000000 000000000000000000000000080046000023f0894000401149397f0000027f0000040101010014e9007b000bfe226f70",
    "fbde086bd46f0700300000004d000000 000000000000000000000000080045c0003f5dea000040011e0e7f0000047f000002030305fa0000000046000023f089",
    "fbde086b327007003000000032000000 000000000000000000000000080045000024004d200040115c6f7f0000067f0000070fa00fa100280000313233343536",
    "fbde086b407007002a0000002a000000 00000000000000000000000008004500001c004d000240117c757f0000067f0000076162636465666768",
];

/// Two TCP packets of the same, with nanoseconds and a snap length of 36, which cuts their ports.
const FIRST_36_BYTES: [&str; 3] = [
    "4d3cb2a10200040000000000000000002400000001000000",
    "ffde086bf082180c240000004a000000 00000000000000000000000008004500003c9ffc400040069cb57f0000017f000009b31c",
    "ffde086b54d6180c240000004a000000 00000000000000000000000008004500003c0000400040063cb27f0000097f0000011b61",
];

/// The bytes of hexadecimal texts, in which anything but a digit of lower case is left out.
fn bytes_of(alloc: Global, texts: &[&str]) -> Result<Vec<u8>, AllocError> {
    let mut bytes = Vec::new(alloc);
    for text in texts {
        let mut high: Option<u8> = None;
        for c in text.bytes() {
            let digit = match c {
                b'0'..=b'9' => c - b'0',
                b'a'..=b'f' => c - b'a' + 10,
                _ => continue,
            };
            match high {
                None => high = Some(digit),
                Some(before) => {
                    bytes.push((before << 4) | digit)?;
                    high = None;
                }
            }
        }
    }
    Ok(bytes)
}

/// Asserts that the file of these texts has these packets and this cut.
fn reads_as(
    rt: &impl Abort,
    alloc: Global,
    texts: &[&str],
    packets: &[Packet],
    cut: Option<u32>,
) -> Result<(), Fail> {
    let capture = Capture::read(alloc, &bytes_of(alloc, texts)?)?;
    same(rt, capture.cut_at(), cut);
    same(rt, capture.count() as usize, packets.len());
    for place in 0..capture.count() {
        assert_eq!(rt;
            Some(&capture.at(place)),
            packets.get(place as usize),
            "packet {place}"
        );
    }
    Ok(())
}

/// What a file's texts are refused by.
fn refusal(alloc: Global, texts: &[&str]) -> Result<Option<CaptureError>, AllocError> {
    Ok(Capture::read(alloc, &bytes_of(alloc, texts)?).err())
}

fn flow(addr: u32, hash: u32) -> Packet {
    let addr = Addr(addr);
    Packet::Flow { addr, hash }
}

#[test]
fn worked_hash(rt: HostRuntime) {
    let hash = flow_hash(Addr(0x0102_0304), Addr(0x0a00_0009), 1, 0, 0);
    same(&rt, hash, 1_701_755_127);
}

#[test]
fn whole_and_cut_files(rt: HostRuntime) -> Result<(), Fail> {
    laws::written_files_are_read_back();
    laws::spans_point_to_flows();
    let alloc = rt.alloc();
    let ping = [flow(0x0a00_0009, 1_701_755_127)];
    reads_as(&rt, alloc, &[RAW, RECORD, PING], &ping, None)?;
    reads_as(&rt, alloc, &[BIG_RAW, BIG_RECORD, PING], &ping, None)?;
    reads_as(&rt, alloc, &[RAW], &[], None)?;
    reads_as(
        &rt,
        alloc,
        &[RAW, RECORD, PING, "00000000000000000000"],
        &ping,
        Some(1),
    )?;
    reads_as(&rt, alloc, &[RAW, RECORD, "450000"], &[], Some(0))?;
    reads_as(
        &rt,
        alloc,
        &[RAW, "00000000 00000000 ffffffff ffffffff", PING],
        &[],
        Some(0),
    )?;
    reads_as(
        &rt,
        alloc,
        &[RAW, "00000000 00000000 00000000 000000"],
        &[],
        Some(0),
    )?;
    reads_as(
        &rt,
        alloc,
        &[RAW, "00000000 00000000 00000000 14000000"],
        &[Packet::NotIpv4],
        None,
    )
}

#[test]
fn refused_files(rt: HostRuntime) -> Result<(), Fail> {
    let alloc = rt.alloc();
    let rows = [
        ("", CaptureError::Short),
        (
            "d4c3b2a1 0200 0400 00000000 00000000 ffff0000 650000",
            CaptureError::Short,
        ),
        (
            "d4c3b2a2 0200 0400 00000000 00000000 ffff0000 710000",
            CaptureError::Short,
        ),
        (UNKNOWN, CaptureError::Magic),
        (OTHER, CaptureError::LinkType(113)),
    ];
    for (text, error) in rows {
        assert_eq!(rt; refusal(alloc, &[text])?, Some(error), "{text}");
    }
    Ok(())
}

#[test]
fn kinds_of_raw_packets(rt: HostRuntime) -> Result<(), Fail> {
    let alloc = rt.alloc();
    let rows = [
        (
            "14",
            "44000014 00000000 40010000 01020304 0a000009",
            Packet::BadHeader,
        ),
        (
            "14",
            "60000014 00000000 40010000 01020304 0a000009",
            Packet::NotIpv4,
        ),
        (
            "13",
            "45000014 00000000 40010000 01020304 0a0000",
            Packet::BadHeader,
        ),
        (
            "14",
            "4f000014 00000000 40060000 01020304 0a000009",
            flow(0x0a00_0009, 2_440_618_414),
        ),
        (
            "18",
            "45000018 00000000 40110000 01020304 0a000009 03e80035",
            flow(0x0a00_0009, 812_622_803),
        ),
        (
            "17",
            "45000018 00000000 40110000 01020304 0a000009 03e800",
            flow(0x0a00_0009, 4_210_703_559),
        ),
        (
            "18",
            "45000018 00000001 40110000 01020304 0a000009 03e80035",
            flow(0x0a00_0009, 4_210_703_559),
        ),
        (
            "1c",
            "4600001c 0000e000 40060000 01020304 0a000009 01010100 01020304",
            flow(0x0a00_0009, 2_306_148_362),
        ),
    ];
    for (length, packet, kind) in rows {
        reads_as(
            &rt,
            alloc,
            &[RAW, "00000000 00000000", length, "000000 00000000", packet],
            &[kind],
            None,
        )?;
    }
    Ok(())
}

#[test]
fn kinds_of_ethernet_frames(rt: HostRuntime) -> Result<(), Fail> {
    let alloc = rt.alloc();
    let rows = [
        ("22", "86dd", PING, Packet::NotIpv4),
        ("22", "8100", PING, Packet::NotIpv4),
        ("22", "0800", PING, flow(0x0a00_0009, 1_701_755_127)),
        (
            "21",
            "0800",
            "45000014 00000000 40010000 01020304 0a0000",
            Packet::BadHeader,
        ),
        ("0d", "08", "", Packet::NotIpv4),
    ];
    for (length, kind, header, packet) in rows {
        let texts = [
            ETHERNET,
            "00000000 00000000",
            length,
            "000000 00000000",
            "020000000001020000000002",
            kind,
            header,
        ];
        reads_as(&rt, alloc, &texts, &[packet], None)?;
    }
    Ok(())
}

/// The addresses, protocols and ports are those that tcpdump printed of the two files.
#[test]
fn files_of_tcpdump(rt: HostRuntime) -> Result<(), Fail> {
    let alloc = rt.alloc();
    let packets = [
        flow(0x7f00_0009, 1_852_189_438),
        flow(0x7f00_0001, 1_833_023_310),
        flow(0x7f00_0009, 1_852_189_438),
        flow(0x7f00_0003, 1_089_213_269),
        flow(0x7f00_0002, 1_874_120_029),
        flow(0x7f00_0004, 1_009_585_928),
        flow(0x7f00_0002, 3_118_272_142),
        flow(0x7f00_0007, 471_261_074),
        flow(0x7f00_0007, 2_635_266_653),
    ];
    reads_as(&rt, alloc, &FIRST_48_BYTES, &packets, None)?;
    let packets = [
        flow(0x7f00_0009, 1_368_322_769),
        flow(0x7f00_0001, 3_896_863_825),
    ];
    reads_as(&rt, alloc, &FIRST_36_BYTES, &packets, None)
}

#[test]
fn a_capture_of_flows(rt: HostRuntime) -> Result<(), Fail> {
    let mut flows = Vec::new(rt.alloc());
    flows.push(flow(7, 9))?;
    let capture = Capture::of_flows(flows);
    same(&rt, capture.cut_at(), None);
    same(&rt, capture.count(), 1);
    same(&rt, capture.at(0), flow(7, 9));
    Ok(())
}

/// The spans of the file of these texts, or why it is refused.
fn spans_in(
    rt: &impl Abort,
    alloc: Global,
    texts: &[&str],
) -> Result<Result<Spans, CaptureError>, AllocError> {
    let bytes = bytes_of(alloc, texts)?;
    holds(rt, bytes.len() <= 268_435_456);
    Ok(Spans::read(alloc, &bytes))
}

/// Asserts that the packets of the file of these texts stand there.
fn stand(
    rt: &impl Abort,
    alloc: Global,
    texts: &[&str],
    places: &[Option<(u32, u32)>],
) -> Result<(), Fail> {
    let spans = spans_in(rt, alloc, texts)??;
    same(rt, spans.count() as usize, places.len());
    for place in 0..spans.count() {
        assert_eq!(rt;
            Some(&spans.ipv4(place)),
            places.get(place as usize),
            "packet {place}"
        );
    }
    Ok(())
}

/// The places are counted by hand: 24 bytes of file header, 16 of each record's, 14 of Ethernet's.
#[test]
fn spans_of_packets(rt: HostRuntime) -> Result<(), Fail> {
    let alloc = rt.alloc();
    stand(&rt, alloc, &[RAW, RECORD, PING], &[Some((40, 20))])?;
    let ipv6 = "60000014 00000000 40010000 01020304 0a000009";
    let bad = "44000014 00000000 40010000 01020304 0a000009";
    stand(
        &rt,
        alloc,
        &[
            RAW, RECORD, ipv6, RECORD, PING, RECORD, bad, RECORD, PING, RECORD, "45",
        ],
        &[None, Some((76, 20)), None, Some((148, 20))],
    )?;
    stand(
        &rt,
        alloc,
        &FIRST_48_BYTES,
        &[
            Some((54, 34)),
            Some((118, 34)),
            Some((182, 34)),
            Some((246, 33)),
            Some((309, 34)),
            Some((373, 34)),
            Some((437, 34)),
            Some((501, 34)),
            Some((565, 28)),
        ],
    )
}

#[test]
fn refused_spans(rt: HostRuntime) -> Result<(), Fail> {
    let alloc = rt.alloc();
    let rows = [
        ("", CaptureError::Short),
        (UNKNOWN, CaptureError::Magic),
        (OTHER, CaptureError::LinkType(113)),
    ];
    for (text, error) in rows {
        let refused = spans_in(&rt, alloc, &[text])?.err();
        assert_eq!(rt; refused, Some(error), "{text}");
    }
    Ok(())
}
