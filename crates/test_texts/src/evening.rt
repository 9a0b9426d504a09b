//! An evening of twelve nodes without a fault, as `sim` writes it: what `zwave_console` prints for its stored lines (its file
//! `stdout`). The whole is in order. With another change in its middle it is not, from that line on.

use super::broken::expect;
use audit::Break;
use std::test::Fail;

/// The first 382 lines.
const BEFORE: &str = "\
> link 1 3\n\
> join 3\n\
> interview 3\n\
h 0104004103B9\n\
c 06\n\
c 0109014180000004000032\n\
h 06\n\
h 010400600398\n\
c 06\n\
c 01040160019B\n\
h 06\n\
> tick 4\n\
t 1\n\
c 010C004984030604000026856CF0\n\
h 06\n\
interviewed 3\n\
> link 1 4\n\
> join 4\n\
> interview 4\n\
h 0104004104BE\n\
c 06\n\
c 0109014180000004000032\n\
h 06\n\
h 01040060049F\n\
c 06\n\
c 01040160019B\n\
h 06\n\
> tick 4\n\
t 5\n\
c 010C004984040604000062986CAE\n\
h 06\n\
interviewed 4\n\
> link 1 6\n\
> join 6\n\
> interview 6\n\
h 0104004106BC\n\
c 06\n\
c 0109014180000004000032\n\
h 06\n\
h 01040060069D\n\
c 06\n\
c 01040160019B\n\
h 06\n\
> tick 4\n\
t 9\n\
c 010E004984060804000040438F856C53\n\
h 06\n\
interviewed 6\n\
> link 1 7\n\
> join 7\n\
> interview 7\n\
h 0104004107BD\n\
c 06\n\
c 0109014180000004000032\n\
h 06\n\
h 01040060079C\n\
c 06\n\
c 01040160019B\n\
h 06\n\
> tick 4\n\
t 13\n\
c 010C004984070604000025606C12\n\
h 06\n\
interviewed 7\n\
> link 1 8\n\
> join 8\n\
> interview 8\n\
h 0104004108B2\n\
c 06\n\
c 0109014180000004000032\n\
h 06\n\
h 010400600893\n\
c 06\n\
c 01040160019B\n\
h 06\n\
> tick 4\n\
t 17\n\
c 010C004984080604000070556C7D\n\
h 06\n\
interviewed 8\n\
> link 1 10\n\
> join 10\n\
> interview 10\n\
h 010400410AB0\n\
c 06\n\
c 0109014180000004000032\n\
h 06\n\
h 010400600A91\n\
c 06\n\
c 01040160019B\n\
h 06\n\
> tick 4\n\
t 21\n\
c 010C0049840A0604000025856CFA\n\
h 06\n\
interviewed 10\n\
> link 1 11\n\
> join 11\n\
> interview 11\n\
h 010400410BB1\n\
c 06\n\
c 0109014180000004000032\n\
h 06\n\
h 010400600B90\n\
c 06\n\
c 01040160019B\n\
h 06\n\
> tick 4\n\
t 25\n\
c 010C0049840B0604000026856CF8\n\
h 06\n\
interviewed 11\n\
> link 1 12\n\
> join 12\n\
> interview 12\n\
h 010400410CB6\n\
c 06\n\
c 0109014180000004000032\n\
h 06\n\
h 010400600C97\n\
c 06\n\
c 01040160019B\n\
h 06\n\
> tick 4\n\
t 29\n\
c 010C0049840C0604000062986CA6\n\
h 06\n\
interviewed 12\n\
> link 1 14\n\
> join 14\n\
> interview 14\n\
h 010400410EB4\n\
c 06\n\
c 0109014180000004000032\n\
h 06\n\
h 010400600E95\n\
c 06\n\
c 01040160019B\n\
h 06\n\
> tick 4\n\
t 33\n\
c 010E0049840E0804000040438F856C5B\n\
h 06\n\
interviewed 14\n\
> link 1 18\n\
> join 18\n\
> interview 18\n\
h 0104004112A8\n\
c 06\n\
c 0109014180000004000032\n\
h 06\n\
h 010400601289\n\
c 06\n\
c 01040160019B\n\
h 06\n\
> tick 4\n\
t 37\n\
c 010C004984120604000025856CE2\n\
h 06\n\
interviewed 18\n\
> link 1 5\n\
> join 5\n\
> wake 5\n\
air 1 5>1 via - 8407\n\
> interview 5\n\
h 0104004105BF\n\
c 06\n\
c 01090141000000040000B2\n\
h 06\n\
h 01040060059E\n\
c 06\n\
c 01040160019B\n\
h 06\n\
> tick 4\n\
t 41\n\
heard 1\n\
c 01080004000502840777\n\
h 06\n\
awake 5\n\
c 010D00498405070400003180846C60\n\
h 06\n\
interviewed 5\n\
h 010900130502840825014A\n\
c 06\n\
c 0104011301E8\n\
air 2 1>5 via - 8408\n\
h 06\n\
t 42\n\
heard 2\n\
c 010500130100E8\n\
h 06\n\
asleep 5\n\
> set 2 on\n\
accepted 1 node 2\n\
begin 2 1 1\n\
h 010E001302076C0101032501FF250274\n\
c 06\n\
c 0104011301E8\n\
air 3 1>2 via - 6C0101032501FF\n\
h 06\n\
> set 10 on\n\
accepted 2 node 10\n\
> set 18 on\n\
accepted 3 node 18\n\
> set 3 40\n\
accepted 4 node 3\n\
> set 11 on\n\
accepted 5 node 11\n\
> set 4 on\n\
accepted 6 node 4\n\
> set 12 on\n\
accepted 7 node 12\n\
> comfort 6 1 1 215\n\
accepted 8 node 6\n\
> mode 14 2\n\
accepted 9 node 14\n\
> setpoint 14 2 240\n\
accepted 10 node 14\n\
> set 7.1 on\n\
accepted 11 node 7\n\
> set 7.2 on\n\
accepted 12 node 7\n\
> set 7.3 off\n\
accepted 13 node 7\n\
> config 8 7 1500\n\
accepted 14 node 8\n\
> assoc 2 1 10\n\
accepted 15 node 2\n\
> interval 5 3600\n\
accepted 16 node 5\n\
> tick 100\n\
t 45\n\
heard 3\n\
dev 2 1 0/switch 255\n\
air 4 2>1 via - 6C0201FF00\n\
c 010500130200EB\n\
h 06\n\
begin 3 1 4\n\
h 010E001303076C018103260128250320\n\
c 06\n\
c 0104011301E8\n\
air 5 1>3 via - 6C018103260128\n\
h 06\n\
t 46\n\
heard 4\n\
c 010B00040002056C0201FF0067\n\
heard 5\n\
air 6 3>1 via - 6C02810101\n\
h 06\n\
out 1 success\n\
store 2 0/switch 255\n\
c 010500130300EA\n\
h 06\n\
begin 4 1 6\n\
h 010900130402984025041A\n\
c 06\n\
c 0104011301E8\n\
air 7 1>4 via - 9840\n\
h 06\n\
t 47\n\
heard 6\n\
c 010B00040003056C0281010119\n\
heard 7\n\
air 8 4>1 via - 9880019D6333269A159D\n\
h 06\n\
c 010500130400ED\n\
h 06\n\
begin 6 1 8\n\
h 0119001306126C01010E8F010203400101064301012200D72505DC\n\
c 06\n\
c 0104011301E8\n\
air 9 1>6 via - 6C01010E8F010203400101064301012200D7\n\
h 06\n\
t 48\n\
heard 8\n\
c 0110000400040A9880019D6333269A159D05\n\
heard 9\n\
dev 6 1 0/mode 1\n\
dev 6 1 0/setpoint:1 215\n\
air 10 6>1 via - 6C0201FF00\n\
h 06\n\
c 010500130500EC\n\
h 06\n\
begin 7 1 11\n\
h 01120013070B600D00016C0101032501FF250609\n\
c 06\n\
c 0104011301E8\n\
air 11 1>7 via - 600D00016C0101032501FF\n\
h 06\n\
t 49\n\
heard 10\n\
c 010B00040006056C0201FF0063\n\
heard 11\n\
dev 7 1 1/switch 255\n\
air 12 7>1 via - 600D01006C0201FF00\n\
h 06\n\
out 8 success\n\
store 6 0/mode 1\n\
store 6 0/setpoint:1 215\n\
c 010500130600EF\n\
h 06\n\
begin 8 1 14\n\
h 01130013080C6C01010870040704000005DC250713\n\
c 06\n\
c 0104011301E8\n\
air 13 1>8 via - 6C01010870040704000005DC\n\
h 06\n\
t 50\n\
heard 12\n\
c 010F0004000709600D01006C0201FF0006\n\
heard 13\n\
dev 8 1 0/config:7 1500\n\
air 14 8>1 via - 6C0201FF00\n\
dev 3 1 0/level 40\n\
air 15 3>1 via - 6C0201FF00\n\
h 06\n\
out 11 success\n\
store 7 1/switch 255\n\
c 010500130700EE\n\
h 06\n\
begin 10 1 2\n\
h 010E00130A076C0101032501FF250876\n\
c 06\n\
c 0104011301E8\n\
air 16 1>10 via - 6C0101032501FF\n\
h 06\n\
t 51\n\
heard 14\n\
c 010B00040008056C0201FF006D\n\
heard 15\n\
heard 16\n\
dev 10 1 0/switch 255\n\
air 17 10>1 via - 6C0201FF00\n\
h 06\n\
out 14 success\n\
store 8 0/config:7 1500\n\
c 010B00040003056C0201FF0066\n\
h 06\n\
out 4 success\n\
store 3 0/level 40\n\
c 010500130800E1\n\
h 06\n\
begin 11 1 5\n\
h 010E00130B076C018103260163250969\n\
c 06\n\
c 0104011301E8\n\
air 18 1>11 via - 6C018103260163\n\
h 06\n\
t 52\n\
heard 17\n\
c 010B0004000A056C0201FF006F\n\
heard 18\n\
air 19 11>1 via - 6C02810101\n\
h 06\n\
out 2 success\n\
store 10 0/switch 255\n\
c 010500130900E0\n\
h 06\n\
begin 12 1 7\n\
h 010900130C029840250A1C\n\
c 06\n\
c 0104011301E8\n\
air 20 1>12 via - 9840\n\
h 06\n\
t 53\n\
heard 19\n\
c 010B0004000B056C0281010111\n\
heard 20\n\
air 21 12>1 via - 98800133C0E9387C624D\n\
h 06\n\
c 010500130A00E3\n\
h 06\n\
begin 14 1 9\n\
h 010E00130E076C010103400102250BE9\n\
c 06\n\
c 0104011301E8\n\
air 22 1>14 via - 6C010103400102\n\
h 06\n\
t 54\n\
heard 21\n\
c 01100004000C0A98800133C0E9387C624D85\n\
heard 22\n\
";

const CHANGE: &str = "dev 14 1 0/mode 2\n";

const OTHER_CHANGE: &str = "dev 14 1 0/mode 1\n";

const AFTER: &str = "\
air 23 14>1 via - 6C0201FF00\n\
h 06\n\
c 010500130B00E2\n\
h 06\n\
begin 18 1 3\n\
h 010E001312076C0101032501FF250C6A\n\
c 06\n\
c 0104011301E8\n\
air 24 1>18 via - 6C0101032501FF\n\
h 06\n\
t 55\n\
heard 23\n\
c 010B0004000E056C0201FF006B\n\
heard 24\n\
dev 18 1 0/switch 255\n\
air 25 18>1 via - 6C0201FF00\n\
h 06\n\
out 9 success\n\
store 14 0/mode 2\n\
c 010500130C00E5\n\
h 06\n\
begin 2 2 15\n\
h 010F001302086C0102048501010A250D25\n\
c 06\n\
c 0104011301E8\n\
air 26 1>2 via - 6C0102048501010A\n\
h 06\n\
t 56\n\
heard 25\n\
c 010B00040012056C0201FF0077\n\
heard 26\n\
dev 2 2 0/member:1:10 1\n\
air 27 2>1 via - 6C0202FF00\n\
dev 11 1 0/level 99\n\
air 28 11>1 via - 6C0201FF00\n\
h 06\n\
out 3 success\n\
store 18 0/switch 255\n\
c 010500130D00E4\n\
h 06\n\
h 01220013041B9881B54225E6C297CCF4BD1C94438A81767F0154DD7F10BC7F25B2250E7D\n\
c 06\n\
c 0104011301E8\n\
air 29 1>4 via - 9881B54225E6C297CCF4BD1C94438A81767F0154DD7F10BC7F25B2\n\
h 06\n\
t 57\n\
heard 27\n\
c 010B00040002056C0202FF0064\n\
heard 28\n\
heard 29\n\
dev 4 1 0/lock 255\n\
air 30 4>1 via - 9840\n\
h 06\n\
out 15 success\n\
store 2 0/member:1:10 1\n\
c 010B0004000B056C0201FF006E\n\
h 06\n\
out 5 success\n\
store 11 0/level 99\n\
c 010500130E00E7\n\
h 06\n\
begin 7 2 12\n\
h 01120013070B600D00026C0102032501FF250F00\n\
c 06\n\
c 0104011301E8\n\
air 31 1>7 via - 600D00026C0102032501FF\n\
h 06\n\
t 58\n\
heard 30\n\
c 0108000400040298402D\n\
heard 31\n\
dev 7 2 2/switch 255\n\
air 32 7>1 via - 600D02006C0202FF00\n\
h 06\n\
c 010500130F00E6\n\
h 06\n\
h 01110013040A988001618C23D19F2E3D25104C\n\
c 06\n\
c 0104011301E8\n\
air 33 1>4 via - 988001618C23D19F2E3D\n\
h 06\n\
t 59\n\
heard 32\n\
c 010F0004000709600D02006C0202FF0006\n\
heard 33\n\
air 34 4>1 via - 98814CF6447653A0353F333544CE6D5701ED794143F4FC9C4E\n\
h 06\n\
out 12 success\n\
store 7 2/switch 255\n\
c 010500131000F9\n\
h 06\n\
h 012200130C1B9881434703B6ED5E55CD162F799026DC57B201F1729B6093B8A0CB251198\n\
c 06\n\
c 0104011301E8\n\
air 35 1>12 via - 9881434703B6ED5E55CD162F799026DC57B201F1729B6093B8A0CB\n\
h 06\n\
t 60\n\
heard 34\n\
c 011F000400041998814CF6447653A0353F333544CE6D5701ED794143F4FC9C4E6A\n\
heard 35\n\
dev 12 1 0/lock 255\n\
air 36 12>1 via - 9840\n\
h 06\n\
out 6 success\n\
store 4 0/lock 255\n\
c 010500131100F8\n\
h 06\n\
begin 14 2 10\n\
h 011100130E0A6C0102064301022200F0251235\n\
c 06\n\
c 0104011301E8\n\
air 37 1>14 via - 6C0102064301022200F0\n\
h 06\n\
t 61\n\
heard 36\n\
c 01080004000C02984025\n\
heard 37\n\
dev 14 2 0/setpoint:2 240\n\
air 38 14>1 via - 6C0202FF00\n\
h 06\n\
c 010500131200FB\n\
h 06\n\
h 011100130C0A9880013F94DAF39A51442513D9\n\
c 06\n\
c 0104011301E8\n\
air 39 1>12 via - 9880013F94DAF39A5144\n\
h 06\n\
t 62\n\
heard 38\n\
c 010B0004000E056C0202FF0068\n\
heard 39\n\
air 40 12>1 via - 9881DE9764D0BEBD7408D11525798828010CF7C41DE8BAB1D0\n\
h 06\n\
out 10 success\n\
store 14 0/setpoint:2 240\n\
c 010500131300FA\n\
h 06\n\
begin 7 3 13\n\
h 01120013070B600D00036C0103032501002514E4\n\
c 06\n\
c 0104011301E8\n\
air 41 1>7 via - 600D00036C010303250100\n\
h 06\n\
t 63\n\
heard 40\n\
c 011F0004000C199881DE9764D0BEBD7408D11525798828010CF7C41DE8BAB1D042\n\
heard 41\n\
dev 7 3 3/switch 0\n\
air 42 7>1 via - 600D03006C0203FF00\n\
h 06\n\
out 7 success\n\
store 12 0/lock 255\n\
c 010500131400FD\n\
h 06\n\
t 64\n\
heard 42\n\
c 010F0004000709600D03006C0203FF0006\n\
h 06\n\
out 13 success\n\
store 7 3/switch 0\n\
> local 2 0\n\
dev 2 local 0/switch 0\n\
air 43 2>1 via - 250300\n\
> set 18 off\n\
accepted 17 node 18\n\
begin 18 2 17\n\
h 010E001312076C01020325010025158F\n\
c 06\n\
c 0104011301E8\n\
air 44 1>18 via - 6C010203250100\n\
h 06\n\
> set 3 0\n\
accepted 18 node 3\n\
> set 12 off\n\
accepted 19 node 12\n\
> mode 6 9\n\
accepted 20 node 6\n\
> wake 5\n\
air 45 5>1 via - 8407\n\
> tick 100\n\
t 145\n\
heard 43\n\
c 01090004000203250300D5\n\
heard 44\n\
dev 18 2 0/switch 0\n\
air 46 18>1 via - 6C0202FF00\n\
heard 45\n\
h 06\n\
report 2 0/switch 0\n\
c 010500131500FC\n\
h 06\n\
begin 3 2 18\n\
h 010E001303076C01820326010025161E\n\
c 01080004000502840777\n\
c 06\n\
air 47 1>3 via - 6C018203260100\n\
h 06\n\
awake 5\n\
c 0104011301E8\n\
h 06\n\
t 146\n\
heard 46\n\
c 010B00040012056C0202FF0074\n\
heard 47\n\
air 48 3>1 via - 6C02820101\n\
h 06\n\
out 17 success\n\
store 18 0/switch 0\n\
c 010500131600FF\n\
h 06\n\
begin 5 1 16\n\
h 01110013050A6C0101068404000E1001251735\n\
c 06\n\
c 0104011301E8\n\
air 49 1>5 via - 6C0101068404000E1001\n\
h 06\n\
t 147\n\
heard 48\n\
c 010B00040003056C028201011A\n\
heard 49\n\
dev 5 1 0/interval 3600\n\
air 50 5>1 via - 6C0201FF00\n\
h 06\n\
c 010500131700FE\n\
h 06\n\
begin 6 2 20\n\
h 010E001306076C0102034001092518FA\n\
c 06\n\
c 0104011301E8\n\
air 51 1>6 via - 6C010203400109\n\
h 06\n\
t 148\n\
heard 50\n\
c 010B00040005056C0201FF0060\n\
heard 51\n\
air 52 6>1 via - 6C02020200\n\
h 06\n\
out 16 success\n\
store 5 0/interval 3600\n\
c 010500131800F1\n\
h 06\n\
h 0109001305028408251952\n\
c 06\n\
c 0104011301E8\n\
air 53 1>5 via - 8408\n\
h 06\n\
t 149\n\
heard 52\n\
c 010B00040006056C020202009D\n\
heard 53\n\
h 06\n\
out 20 fail\n\
c 010500131900F0\n\
h 06\n\
asleep 5\n\
begin 12 2 19\n\
h 010900130C029840251A0C\n\
c 06\n\
c 0104011301E8\n\
air 54 1>12 via - 9840\n\
h 06\n\
t 150\n\
heard 54\n\
air 55 12>1 via - 9880020F7123D1D89245\n\
c 010500131A00F3\n\
dev 3 2 0/level 0\n\
air 56 3>1 via - 6C0202FF00\n\
h 06\n\
t 151\n\
heard 55\n\
c 01100004000C0A9880020F7123D1D8924574\n\
heard 56\n\
h 06\n\
h 012200130C1B98817411F12442F4D204D0BA8BAB66C8228202CD25637BB760C33C251BB0\n\
c 010B00040003056C0202FF0065\n\
c 06\n\
air 57 1>12 via - 98817411F12442F4D204D0BA8BAB66C8228202CD25637BB760C33C\n\
h 06\n\
out 18 success\n\
store 3 0/level 0\n\
c 0104011301E8\n\
h 06\n\
t 152\n\
heard 57\n\
dev 12 2 0/lock 0\n\
air 58 12>1 via - 9840\n\
c 010500131B00F2\n\
h 06\n\
t 153\n\
heard 58\n\
c 01080004000C02984025\n\
h 06\n\
h 011100130C0A9880020033702E228F06251C1E\n\
c 06\n\
c 0104011301E8\n\
air 59 1>12 via - 9880020033702E228F06\n\
h 06\n\
t 154\n\
heard 59\n\
air 60 12>1 via - 98815D2D843683F99E334473D835C48C02149FE7921152354E\n\
c 010500131C00F5\n\
h 06\n\
t 155\n\
heard 60\n\
c 011F0004000C1998815D2D843683F99E334473D835C48C02149FE7921152354EAB\n\
h 06\n\
out 19 success\n\
store 12 0/lock 0\n\
end 244\n\
node 2 sessions 1 15\n\
value 2 0/switch confirmed 255 heard 0\n\
value 2 0/member:1:10 confirmed 1 heard -\n\
device 2 0/switch 0\n\
device 2 0/member:1:10 1\n\
node 3 sessions 4 18\n\
value 3 0/level confirmed 0 heard -\n\
device 3 0/level 0\n\
node 4 sessions 6\n\
value 4 0/lock confirmed 255 heard -\n\
device 4 0/lock 255\n\
node 5 sessions 16\n\
value 5 0/interval confirmed 3600 heard -\n\
device 5 0/interval 3600\n\
device 5 0/sensor 0\n\
node 6 sessions 8 20\n\
value 6 0/mode confirmed 1 heard -\n\
value 6 0/setpoint:1 confirmed 215 heard -\n\
device 6 0/mode 1\n\
device 6 0/setpoint:1 215\n\
node 7 sessions 11 12 13\n\
value 7 1/switch confirmed 255 heard -\n\
value 7 2/switch confirmed 255 heard -\n\
value 7 3/switch confirmed 0 heard -\n\
device 7 0/switch 0\n\
device 7 1/switch 255\n\
device 7 2/switch 255\n\
node 8 sessions 14\n\
value 8 0/config:7 confirmed 1500 heard -\n\
device 8 0/config:0 0\n\
device 8 0/config:7 1500\n\
node 10 sessions 2\n\
value 10 0/switch confirmed 255 heard -\n\
device 10 0/switch 255\n\
node 11 sessions 5\n\
value 11 0/level confirmed 99 heard -\n\
device 11 0/level 99\n\
node 12 sessions 7 19\n\
value 12 0/lock confirmed 0 heard -\n\
device 12 0/lock 0\n\
node 14 sessions 9 10\n\
value 14 0/mode confirmed 2 heard -\n\
value 14 0/setpoint:2 confirmed 240 heard -\n\
device 14 0/mode 2\n\
device 14 0/setpoint:2 240\n\
node 18 sessions 3 17\n\
value 18 0/switch confirmed 0 heard -\n\
device 18 0/switch 0\n\
";

#[test]
fn an_evening_is_in_order(rt: HostRuntime) -> Result<(), Fail> {
    expect(&rt, rt.alloc(), &[BEFORE, CHANGE, AFTER], None)
}

#[test]
fn an_evening_with_another_change(rt: HostRuntime) -> Result<(), Fail> {
    expect(
        &rt,
        rt.alloc(),
        &[BEFORE, OTHER_CHANGE, AFTER],
        Some((383, Break::Once)),
    )
}
