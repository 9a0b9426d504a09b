//! The tables: what is asked of a host, and after each `>` what it puts out then.

use crate::desk::Desk;
use crate::evening::EVENING;
use std::alloc::Global;
use std::process::Abort;
use std::test::Fail;

/// Each call of a host, a host that starts from its records, and a frame that is given up after 65 ticks without its callback.
const ASKED: &str = "\
host\n\
send 2 on > h 010A001302032501FF250118\n\
host\n\
get 2 > h 01090013020225022501E6\n\
host\n\
get 3 > refused\n\
join 3\n\
set 2 on > accepted 1 > begin 2 1 1 > h 010E001302076C0101032501FF250177\n\
set 2 off > accepted 2\n\
cancel 2\n\
interview 2\n\
probe\n\
neighbours 2\n\
failed 2\n\
open > h 010E001302076C0101032501FF250177\n\
host\n\
set 2 on > accepted 1 > begin 2 1 1 > h 010E001302076C0101032501FF250177\n\
chip 060104011301E8 > h 06\n\
tick 64\n\
tick 1 > h 01030016EA\n\
";

/// A report of another session; a wrong sum; an unfinished frame, which is forgotten after 15 ticks.
const BYTES: &str = "\
host\n\
set 2 on > accepted 1 > begin 2 1 1 > h 010E001302076C0101032501FF250177\n\
chip 010B00040002056C0202FF0064 > h 06 > old 2 2\n\
host\n\
chip 010B00040002056C0201FF0066 > h 15\n\
host\n\
chip 01FF00\n\
tick 15\n\
chip 010B00040002056C0202FF0064 > h 06 > old 2 2\n\
";

/// A node that sleeps: what is ordered for it waits until it wakes.
const SLEEPING: &str = "\
host\n\
join 5\n\
interview 5 > h 0104004105BF\n\
chip 0601090141000000040000B2 > h 06 > h 01040060059E\n\
chip 0601040160019B > h 06\n\
tick 1\n\
chip 01080004000502840777 > h 06 > awake 5\n\
chip 010D00498405070400003180846C60 > h 06 > interviewed 5 > h 010900130502840825014A\n\
chip 060104011301E8 > h 06\n\
tick 1\n\
chip 010500130100E8 > h 06 > asleep 5\n\
tick 2\n\
set 2 on > accepted 1 > begin 2 1 1 > h 010E001302076C0101032501FF250274\n\
chip 060104011301E8 > h 06\n\
interval 5 300 > accepted 2\n\
tick 1\n\
chip 010500130200EB > h 06\n\
chip 01080004000502840777 > h 06 > awake 5 > begin 5 1 2 > h 01110013050A6C010106840400012C01250312\n\
chip 060104011301E8 > h 06\n\
tick 1\n\
chip 010B00040002056C0201FF0067 > h 06 > out 1 success > store 2 0/switch 255\n\
chip 010500130300EA > h 06\n\
tick 1\n\
chip 010B00040005056C0201FF0060 > h 06 > out 2 success > store 5 0/interval 300 > h 010900130502840825044F\n\
chip 060104011301E8 > h 06\n\
tick 1\n\
chip 010500130400ED > h 06 > asleep 5\n\
tick 396\n\
";

/// A lost acknowledgement: the second attempt, whose report ends the session once.
const AGAIN: &str = "\
host\n\
set 2 on > accepted 1 > begin 2 1 1 > h 010E001302076C0101032501FF250177\n\
chip 060104011301E8 > h 06\n\
tick 1\n\
chip 010500130101E9 > h 06 > h 010E001302076C0101032501FF250274\n\
chip 060104011301E8 > h 06\n\
tick 1\n\
chip 010B00040002056C0201FF0067 > h 06 > out 1 success > store 2 0/switch 255\n\
chip 010500130200EB > h 06\n\
tick 1\n\
chip 010B00040002056C0201FF0067 > h 06 > old 2 1\n\
tick 1\n\
";

/// A message of three segments, of which the second is lost and asked for.
const LONG: &str = "\
host\n\
join 8\n\
interview 8 > h 0104004108B2\n\
chip 060109014180000004000032 > h 06 > h 010400600893\n\
chip 0601040160019B > h 06\n\
tick 1\n\
chip 010C004984080604000070556C7D > h 06 > interviewed 8\n\
tick 1\n\
bulk 8 0 0101010101010101010101010101010101010101010101010101010101010101010101010101010101010101010101010101010\
1010101010101010101010101010101010101 > accepted 1 > begin 8 1 1 \
> h 01340013082D55C050106C01014C7007000046010101010101010101010101010101010101010101010101010101010101F36E250180\n\
chip 060104011301E8 > h 06\n\
tick 1\n\
chip 010500130100E8 > h 06 \
> h 01350013082E55E0501027010101010101010101010101010101010101010101010101010101010101010101010101010101E1792502\
93\n\
chip 060104011301E8 > h 06\n\
tick 1\n\
chip 010500130201EA > h 06 > h 01100013080955E050104E01012B53250318\n\
chip 060104011301E8 > h 06\n\
tick 1\n\
chip 010500130300EA > h 06\n\
tick 1\n\
chip 010A000400080455C8102757 > h 06 \
> h 01350013082E55E0501027010101010101010101010101010101010101010101010101010101010101010101010101010101E1792504\
95\n\
chip 060104011301E8 > h 06\n\
tick 1\n\
chip 010500130400ED > h 06\n\
tick 1\n\
chip 010A000400080455E8105404 > h 06\n\
chip 010B00040008056C0201FF006D > h 06 > out 1 success > store 8 0/config:0 1 > store 8 0/config:1 1 \
> store 8 0/config:2 1 > store 8 0/config:3 1 > store 8 0/config:4 1 > store 8 0/config:5 1 \
> store 8 0/config:6 1 > store 8 0/config:7 1 > store 8 0/config:8 1 > store 8 0/config:9 1 \
> store 8 0/config:10 1 > store 8 0/config:11 1 > store 8 0/config:12 1 > store 8 0/config:13 1 \
> store 8 0/config:14 1 > store 8 0/config:15 1 > store 8 0/config:16 1 > store 8 0/config:17 1 \
> store 8 0/config:18 1 > store 8 0/config:19 1 > store 8 0/config:20 1 > store 8 0/config:21 1 \
> store 8 0/config:22 1 > store 8 0/config:23 1 > store 8 0/config:24 1 > store 8 0/config:25 1 \
> store 8 0/config:26 1 > store 8 0/config:27 1 > store 8 0/config:28 1 > store 8 0/config:29 1 \
> store 8 0/config:30 1 > store 8 0/config:31 1 > store 8 0/config:32 1 > store 8 0/config:33 1 \
> store 8 0/config:34 1 > store 8 0/config:35 1 > store 8 0/config:36 1 > store 8 0/config:37 1 \
> store 8 0/config:38 1 > store 8 0/config:39 1 > store 8 0/config:40 1 > store 8 0/config:41 1 \
> store 8 0/config:42 1 > store 8 0/config:43 1 > store 8 0/config:44 1 > store 8 0/config:45 1 \
> store 8 0/config:46 1 > store 8 0/config:47 1 > store 8 0/config:48 1 > store 8 0/config:49 1 \
> store 8 0/config:50 1 > store 8 0/config:51 1 > store 8 0/config:52 1 > store 8 0/config:53 1 \
> store 8 0/config:54 1 > store 8 0/config:55 1 > store 8 0/config:56 1 > store 8 0/config:57 1 \
> store 8 0/config:58 1 > store 8 0/config:59 1 > store 8 0/config:60 1 > store 8 0/config:61 1 \
> store 8 0/config:62 1 > store 8 0/config:63 1 > store 8 0/config:64 1 > store 8 0/config:65 1 \
> store 8 0/config:66 1 > store 8 0/config:67 1 > store 8 0/config:68 1 > store 8 0/config:69 1\n\
";

/// Keepers of which one call fails, for each call of one exchange: what is not kept is not done. The last fails at the second record that a
/// new host reads.
const UNKEPT: &str = "\
host 1\n\
set 2 on > refused\n\
set 2 on > accepted 1 > begin 2 1 1 > h 010E001302076C0101032501FF250177\n\
host 2\n\
set 2 on > accepted 1 > unkept 2\n\
tick 1 > begin 2 1 1 > h 010E001302076C0101032501FF250177\n\
host 3\n\
set 2 on > accepted 1 > begin 2 1 1 > h 010E001302076C0101032501FF250177\n\
chip 06\n\
chip 0104011301E8 > h 06\n\
chip 010500130100E8 > h 06\n\
chip 010B00040002056C0201FF0067 > h 06 > unkept 2\n\
chip 010B00040002056C0201FF0067 > h 06 > out 1 success > store 2 0/switch 255\n\
host 4\n\
set 2 on > accepted 1 > begin 2 1 1 > h 010E001302076C0101032501FF250177\n\
open > refused\n\
";

/// The same for an exchange with a lock: its joining, its classes, the order, the session, the count of its nonces, the nonce given
/// to it, that nonce spent, the end. The report that is not kept has spent its nonce.
const LOCK: &str = "\
host 1\n\
join 4 > refused\n\
join 4\n\
host 2\n\
join 4\n\
interview 4 > h 0104004104BE\n\
chip 060109014180000004000032 > h 06 > h 01040060049F\n\
chip 0601040160019B > h 06\n\
chip 010C004984040604000062986CAE > h 06 > unkept 4\n\
set 4 on > refused\n\
host 3\n\
join 4\n\
interview 4 > h 0104004104BE\n\
chip 060109014180000004000032 > h 06 > h 01040060049F\n\
chip 0601040160019B > h 06\n\
chip 010C004984040604000062986CAE > h 06 > interviewed 4\n\
set 4 on > refused\n\
set 4 on > accepted 1 > begin 4 1 1 > h 010900130402984025011F\n\
host 4\n\
join 4\n\
interview 4 > h 0104004104BE\n\
chip 060109014180000004000032 > h 06 > h 01040060049F\n\
chip 0601040160019B > h 06\n\
chip 010C004984040604000062986CAE > h 06 > interviewed 4\n\
set 4 on > accepted 1 > unkept 4\n\
tick 1 > begin 4 1 1 > h 010900130402984025011F\n\
host 5\n\
join 4\n\
interview 4 > h 0104004104BE\n\
chip 060109014180000004000032 > h 06 > h 01040060049F\n\
chip 0601040160019B > h 06\n\
chip 010C004984040604000062986CAE > h 06 > interviewed 4\n\
set 4 on > accepted 1 > begin 4 1 1 > h 010900130402984025011F\n\
chip 060104011301E8010500130100E8 > h 06 > h 06\n\
chip 0110000400040A98800141424344454647BC > h 06 > unkept 4\n\
chip 0110000400040A98800141424344454647BC > h 06 \
> h 01220013041B9881B0B1B2B3B4B5B6B72D4B706ACB163394011B2BA61C5CC4C16125025A\n\
host 6\n\
join 4\n\
interview 4 > h 0104004104BE\n\
chip 060109014180000004000032 > h 06 > h 01040060049F\n\
chip 0601040160019B > h 06\n\
chip 010C004984040604000062986CAE > h 06 > interviewed 4\n\
set 4 on > accepted 1 > begin 4 1 1 > h 010900130402984025011F\n\
chip 060104011301E8010500130100E8 > h 06 > h 06\n\
chip 0110000400040A98800141424344454647BC > h 06 \
> h 01220013041B9881A0A1A2A3A4A5A6A7D6B0A6BCB546A813019427421CDF8155F82502C4\n\
chip 060104011301E8010500130200EB > h 06 > h 06\n\
chip 0108000400040298402D > h 06 > unkept 4\n\
chip 0108000400040298402D > h 06 > h 01110013040A988001C1C2C3C4C5C6C725030C\n\
host 7\n\
join 4\n\
interview 4 > h 0104004104BE\n\
chip 060109014180000004000032 > h 06 > h 01040060049F\n\
chip 0601040160019B > h 06\n\
chip 010C004984040604000062986CAE > h 06 > interviewed 4\n\
set 4 on > accepted 1 > begin 4 1 1 > h 010900130402984025011F\n\
chip 060104011301E8010500130100E8 > h 06 > h 06\n\
chip 0110000400040A98800141424344454647BC > h 06 \
> h 01220013041B9881A0A1A2A3A4A5A6A7D6B0A6BCB546A813019427421CDF8155F82502C4\n\
chip 060104011301E8010500130200EB > h 06 > h 06\n\
chip 0108000400040298402D > h 06 > h 01110013040A988001B1B2B3B4B5B6B725037C\n\
chip 060104011301E8010500130300EA > h 06 > h 06\n\
chip 011F000400041998817172737475767778FD0898D3EC5E01AC44775CCD653DBA09 > h 06 > unkept 4\n\
chip 011F000400041998817172737475767778FD0898D3EC5E01AC44775CCD653DBA09 > h 06 > out 1 success \
> store 4 0/lock 255\n\
host 8\n\
join 4\n\
interview 4 > h 0104004104BE\n\
chip 060109014180000004000032 > h 06 > h 01040060049F\n\
chip 0601040160019B > h 06\n\
chip 010C004984040604000062986CAE > h 06 > interviewed 4\n\
set 4 on > accepted 1 > begin 4 1 1 > h 010900130402984025011F\n\
chip 060104011301E8010500130100E8 > h 06 > h 06\n\
chip 0110000400040A98800141424344454647BC > h 06 \
> h 01220013041B9881A0A1A2A3A4A5A6A7D6B0A6BCB546A813019427421CDF8155F82502C4\n\
chip 060104011301E8010500130200EB > h 06 > h 06\n\
chip 0108000400040298402D > h 06 > h 01110013040A988001B1B2B3B4B5B6B725037C\n\
chip 060104011301E8010500130300EA > h 06 > h 06\n\
chip 011F000400041998817172737475767778FD0898D3EC5E01AC44775CCD653DBA09 > h 06 > unkept 4\n\
chip 011F000400041998817172737475767778FD0898D3EC5E01AC44775CCD653DBA09 > h 06 \
> unread 4 98817172737475767778FD0898D3EC5E01AC44775CCD653DBA\n\
chip 0108000400040298402D > h 06 > h 01110013040A988002C1C2C3C4C5C6C7250408\n\
";

/// The tables.
const TABLES: [&str; 8] = [ASKED, BYTES, SLEEPING, AGAIN, LONG, UNKEPT, LOCK, EVENING];

/// Ends the test at a line that is not so.
fn check_line(rt: &impl Abort, is_so: bool, line: &str) {
    assert!(rt; is_so, "{line}");
}

/// Plays a table and compares, line by line.
fn play(rt: &impl Abort, desk: &mut Desk, table: &str) -> Result<(), Fail> {
    for line in table.lines() {
        let action = line.split_once(" > ").map_or(line, |(action, _)| action);
        desk.take(action)?;
        check_line(rt, desk.text() == line, line);
    }
    Ok(())
}

/// The same, from a host at its beginning.
fn play_anew(rt: &impl Abort, alloc: Global, table: &str) -> Result<(), Fail> {
    let mut desk = Desk::new(alloc, &[])?;
    play(rt, &mut desk, table)
}

#[test]
fn tables(rt: HostRuntime) -> Result<(), Fail> {
    for table in TABLES {
        play_anew(&rt, rt.alloc(), table)?;
    }
    Ok(())
}
