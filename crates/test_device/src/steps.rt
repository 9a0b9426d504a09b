//! What is played at each kind. A line is what happens, how many changes there are then, and what is sent, or `-`. What
//! happens is a payload heard, so many ticks, of which the last one's replies are seen, a wake-up, or a value set by hand.

/// Sessions new, again and old, without Supervision, and each kind of judgement.
pub(crate) const SWITCH: &str = "\
hear 6c0101032501ff 1 6c0201ff00\n\
hear 6c0101032501ff 1 6c0201ff00\n\
hear 6c0103032501ff 1 -\n\
hear 2502 1 2503ff\n\
hear 250100 1 -\n\
hear 6c0102048501010a 2 6c0202ff00\n\
hear 850201 2 85030105000a\n\
hear 850207 2 8503070500\n\
hear 6c0103088501010102030405 2 6c02030200\n\
hear 6c0104022502 2 6c02040000\n\
hear 6c010503250107 2 6c02050000\n\
hear 6c010603850101 2 6c02060200\n\
hear 6c0107058501010703 3 6c0207ff00\n\
set 0 4 250300\n\
wake - 4 -\n\
ticks 250 4 -\n\
hear 56012502c631 4 -\n\
";

/// Work of five ticks, with and without updates; a repeat while at work; the last level.
pub(crate) const DIMMER: &str = "\
hear 6c018103260128 0 6c02810101\n\
ticks 3 0 -\n\
hear 6c018103260128 0 6c02810101\n\
hear 6c010203260100 0 -\n\
ticks 1 0 -\n\
ticks 1 1 6c0201ff00\n\
hear 6c018103260128 1 6c0201ff00\n\
hear 2602 1 260328\n\
hear 6c010203260100 1 6c02020101\n\
ticks 6 2 -\n\
hear 6c0103032601ff 2 6c02030101\n\
ticks 5 3 -\n\
hear 2602 3 260328\n\
hear 6c01840485010102 4 6c0204ff00\n\
set 200 5 260363\n\
";

/// Nothing plain; a message before its nonce, once with it, and again; the answer at a nonce of the host that counts. The two
/// sealed messages are those of an independent implementation (OpenSSL, by Python's `cryptography`).
pub(crate) const LOCK: &str = "\
hear 6c0101036201ff 0 -\n\
hear 6202 0 -\n\
hear 98810909090909090909d9ddb1e69cf82e4501edc0aff5b06bcf3a 0 -\n\
hear 9840 0 988001d1d2d3d4d5d6d7\n\
hear 9840 0 988001d1d2d3d4d5d6d7\n\
hear 98800102030405060708 0 -\n\
hear 98810909090909090909d9ddb1e69cf82e4501edc0aff5b06bcf3a 1 9840\n\
hear 98810909090909090909d9ddb1e69cf82e4501edc0aff5b06bcf3a 1 -\n\
hear 98800702030405060708 1 -\n\
hear 98800102030405060708 1 9881d0d1d2d3d4d5d6d7a935b8e4c98901f8e316df2c78afb3\n\
hear 98800102030405060708 1 -\n\
set 0 2 -\n\
";

/// Asleep by time and by the host's word, and woken; an interval of its own node and of another.
pub(crate) const SENSOR: &str = "\
ticks 200 0 -\n\
hear 6c0101068404000e1001 0 -\n\
wake - 0 8407\n\
hear 6c0101068404000e1001 1 6c0201ff00\n\
hear 8405 1 8406000e1001\n\
hear 8002 1 800364\n\
hear 3104 1 310501220000\n\
set 21 2 310501220015\n\
ticks 199 2 -\n\
hear 6c010206840400000902 2 6c02020200\n\
hear 8408 2 -\n\
hear 3104 2 -\n\
set 3 3 -\n\
";

/// Batches: of two, of which the second fails, of none, of two out of order, and of members of which the second fails.
pub(crate) const THERMOSTAT: &str = "\
hear 6c01010e8f010203400101064301012200d7 1 6c0201ff00\n\
hear 6c01020e8f01020340010206430101220020 1 6c02020200\n\
hear 6c0103038f0100 1 6c02030000\n\
hear 6c01040e8f0102064301022200f003400100 2 6c0204ff00\n\
hear 6c0105128f0102068501010102030785010104050607 2 6c02050200\n\
hear 4002 2 400300\n\
hear 430201 2 4303012200d7\n\
hear 430203 2 -\n\
hear 8f0101024002 2 -\n\
hear 6c010603400103 2 6c02060200\n\
set 5 3 400302\n\
";

/// End points that are there and that are not.
pub(crate) const STRIP: &str = "\
hear 600d00036c0101032501ff 1 600d03006c0201ff00\n\
hear 600d00096c0102032501ff 1 600d09006c02020000\n\
hear 600d00032502 1 600d03002503ff\n\
hear 600d00052502 1 -\n\
hear 2502 1 250300\n\
set 1 2 2503ff\n\
";

/// A datagram whose third segment comes last, and its last segment again; one parameter; parameters with the default bit.
pub(crate) const CONFIGURABLE: &str = "\
hear 55c0d2106c0101ce70070000c8010101010101010101010101010101010101010101010101010101010101d0bb 0 -\n\
hear 55e0d2102701010101010101010101010101010101010101010101010101010101010101010101010101010149bb 0 -\n\
hear 55e0d21075010101010101010101010101010101010101010101010101010101010101010101010101010101a164 0 -\n\
hear 55e0d2109c0101010101010101010101010101010101010101010101010101010101010101010101010101012f53 0 -\n\
hear 55e0d210c301010101010101010101010101010148a8 0 55c8104e\n\
hear 55e0d2104e0101010101010101010101010101010101010101010101010101010101010101010101010101019bfc 1 55e810 6c0201ff00\n\
hear 55e0d2104e0101010101010101010101010101010101010101010101010101010101010101010101010101019bfc 1 -\n\
hear 55e0d210c301010101010101010101010101010148a8 1 55e810 6c0201ff00\n\
hear 700507 1 7006070400000001\n\
hear 6c01020870040704000005dc 2 6c0202ff00\n\
hear 6c01030870040784000005dc 2 6c02030200\n\
set 9 3 -\n\
";

/// Plain Sets alone, in CRC-16 or without; no Supervision, no batch, no end point.
pub(crate) const RELAY: &str = "\
hear 56012501ff1f3a 1 -\n\
hear 6c0101032501ff 1 -\n\
hear 8f010103250100 1 -\n\
hear 250100 2 -\n\
hear 600d00012501ff 2 -\n\
hear 2502 2 250300\n\
set 1 3 2503ff\n\
";
