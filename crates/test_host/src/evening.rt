//! An evening of eleven nodes.

/// Interviews; orders for switches, dimmers, locks, thermostats, a strip, a device of parameters and a sensor that sleeps; sixteen
/// of them at once, and four more while somebody sets a switch by hand.
pub const EVENING: &str = "\
host\n\
join 3\n\
interview 3 > h 0104004103B9\n\
chip 060109014180000004000032 > h 06 > h 010400600398\n\
chip 0601040160019B > h 06\n\
tick 1\n\
chip 010C004984030604000026856CF0 > h 06 > interviewed 3\n\
tick 3\n\
join 4\n\
interview 4 > h 0104004104BE\n\
chip 060109014180000004000032 > h 06 > h 01040060049F\n\
chip 0601040160019B > h 06\n\
tick 1\n\
chip 010C004984040604000062986CAE > h 06 > interviewed 4\n\
tick 3\n\
join 6\n\
interview 6 > h 0104004106BC\n\
chip 060109014180000004000032 > h 06 > h 01040060069D\n\
chip 0601040160019B > h 06\n\
tick 1\n\
chip 010E004984060804000040438F856C53 > h 06 > interviewed 6\n\
tick 3\n\
join 7\n\
interview 7 > h 0104004107BD\n\
chip 060109014180000004000032 > h 06 > h 01040060079C\n\
chip 0601040160019B > h 06\n\
tick 1\n\
chip 010C004984070604000025606C12 > h 06 > interviewed 7\n\
tick 3\n\
join 8\n\
interview 8 > h 0104004108B2\n\
chip 060109014180000004000032 > h 06 > h 010400600893\n\
chip 0601040160019B > h 06\n\
tick 1\n\
chip 010C004984080604000070556C7D > h 06 > interviewed 8\n\
tick 3\n\
join 10\n\
interview 10 > h 010400410AB0\n\
chip 060109014180000004000032 > h 06 > h 010400600A91\n\
chip 0601040160019B > h 06\n\
tick 1\n\
chip 010C0049840A0604000025856CFA > h 06 > interviewed 10\n\
tick 3\n\
join 11\n\
interview 11 > h 010400410BB1\n\
chip 060109014180000004000032 > h 06 > h 010400600B90\n\
chip 0601040160019B > h 06\n\
tick 1\n\
chip 010C0049840B0604000026856CF8 > h 06 > interviewed 11\n\
tick 3\n\
join 12\n\
interview 12 > h 010400410CB6\n\
chip 060109014180000004000032 > h 06 > h 010400600C97\n\
chip 0601040160019B > h 06\n\
tick 1\n\
chip 010C0049840C0604000062986CA6 > h 06 > interviewed 12\n\
tick 3\n\
join 14\n\
interview 14 > h 010400410EB4\n\
chip 060109014180000004000032 > h 06 > h 010400600E95\n\
chip 0601040160019B > h 06\n\
tick 1\n\
chip 010E0049840E0804000040438F856C5B > h 06 > interviewed 14\n\
tick 3\n\
join 18\n\
interview 18 > h 0104004112A8\n\
chip 060109014180000004000032 > h 06 > h 010400601289\n\
chip 0601040160019B > h 06\n\
tick 1\n\
chip 010C004984120604000025856CE2 > h 06 > interviewed 18\n\
tick 3\n\
join 5\n\
interview 5 > h 0104004105BF\n\
chip 0601090141000000040000B2 > h 06 > h 01040060059E\n\
chip 0601040160019B > h 06\n\
tick 1\n\
chip 01080004000502840777 > h 06 > awake 5\n\
chip 010D00498405070400003180846C60 > h 06 > interviewed 5 > h 010900130502840825014A\n\
chip 060104011301E8 > h 06\n\
tick 1\n\
chip 010500130100E8 > h 06 > asleep 5\n\
tick 2\n\
set 2 on > accepted 1 > begin 2 1 1 > h 010E001302076C0101032501FF250274\n\
chip 060104011301E8 > h 06\n\
set 10 on > accepted 2\n\
set 18 on > accepted 3\n\
set 3 40 > accepted 4\n\
set 11 on > accepted 5\n\
set 4 on > accepted 6\n\
set 12 on > accepted 7\n\
comfort 6 1 1 215 > accepted 8\n\
mode 14 2 > accepted 9\n\
setpoint 14 2 240 > accepted 10\n\
set 7.1 on > accepted 11\n\
set 7.2 on > accepted 12\n\
set 7.3 off > accepted 13\n\
config 8 7 1500 > accepted 14\n\
assoc 2 1 10 > accepted 15\n\
interval 5 3600 > accepted 16\n\
tick 1\n\
chip 010500130200EB > h 06 > begin 3 1 4 > h 010E001303076C018103260128250320\n\
chip 060104011301E8 > h 06\n\
tick 1\n\
chip 010B00040002056C0201FF0067 > h 06 > out 1 success > store 2 0/switch 255\n\
chip 010500130300EA > h 06 > begin 4 1 6 > h 010900130402984025041A\n\
chip 060104011301E8 > h 06\n\
tick 1\n\
chip 010B00040003056C0281010119 > h 06\n\
chip 010500130400ED > h 06 > begin 6 1 8 > h 0119001306126C01010E8F010203400101064301012200D72505DC\n\
chip 060104011301E8 > h 06\n\
tick 1\n\
chip 0110000400040A98800141424344454647BC > h 06\n\
chip 010500130500EC > h 06 > begin 7 1 11 > h 01120013070B600D00016C0101032501FF250609\n\
chip 060104011301E8 > h 06\n\
tick 1\n\
chip 010B00040006056C0201FF0063 > h 06 > out 8 success > store 6 0/mode 1 > store 6 0/setpoint:1 215\n\
chip 010500130600EF > h 06 > begin 8 1 14 > h 01130013080C6C01010870040704000005DC250713\n\
chip 060104011301E8 > h 06\n\
tick 1\n\
chip 010F0004000709600D01006C0201FF0006 > h 06 > out 11 success > store 7 1/switch 255\n\
chip 010500130700EE > h 06 > begin 10 1 2 > h 010E00130A076C0101032501FF250876\n\
chip 060104011301E8 > h 06\n\
tick 1\n\
chip 010B00040008056C0201FF006D > h 06 > out 14 success > store 8 0/config:7 1500\n\
chip 010B00040003056C0201FF0066 > h 06 > out 4 success > store 3 0/level 40\n\
chip 010500130800E1 > h 06 > begin 11 1 5 > h 010E00130B076C018103260163250969\n\
chip 060104011301E8 > h 06\n\
tick 1\n\
chip 010B0004000A056C0201FF006F > h 06 > out 2 success > store 10 0/switch 255\n\
chip 010500130900E0 > h 06 > begin 12 1 7 > h 010900130C029840250A1C\n\
chip 060104011301E8 > h 06\n\
tick 1\n\
chip 010B0004000B056C0281010111 > h 06\n\
chip 010500130A00E3 > h 06 > begin 14 1 9 > h 010E00130E076C010103400102250BE9\n\
chip 060104011301E8 > h 06\n\
tick 1\n\
chip 01100004000C0A98800151525354555657A4 > h 06\n\
chip 010500130B00E2 > h 06 > begin 18 1 3 > h 010E001312076C0101032501FF250C6A\n\
chip 060104011301E8 > h 06\n\
tick 1\n\
chip 010B0004000E056C0201FF006B > h 06 > out 9 success > store 14 0/mode 2\n\
chip 010500130C00E5 > h 06 > begin 2 2 15 > h 010F001302086C0102048501010A250D25\n\
chip 060104011301E8 > h 06\n\
tick 1\n\
chip 010B00040012056C0201FF0077 > h 06 > out 3 success > store 18 0/switch 255\n\
chip 010500130D00E4 > h 06 > h 01220013041B9881A0A1A2A3A4A5A6A7D6B0A6BCB546A813019427421CDF8155F8250EC8\n\
chip 060104011301E8 > h 06\n\
tick 1\n\
chip 010B00040002056C0202FF0064 > h 06 > out 15 success > store 2 0/member:1:10 1\n\
chip 010B0004000B056C0201FF006E > h 06 > out 5 success > store 11 0/level 99\n\
chip 010500130E00E7 > h 06 > begin 7 2 12 > h 01120013070B600D00026C0102032501FF250F00\n\
chip 060104011301E8 > h 06\n\
tick 1\n\
chip 0108000400040298402D > h 06\n\
chip 010500130F00E6 > h 06 > h 01110013040A988001C1C2C3C4C5C6C725101F\n\
chip 060104011301E8 > h 06\n\
tick 1\n\
chip 010F0004000709600D02006C0202FF0006 > h 06 > out 12 success > store 7 2/switch 255\n\
chip 010500131000F9 > h 06 > h 012200130C1B9881B0B1B2B3B4B5B6B746FCDC90DCDC46E401528C0FA93AA546F12511F1\n\
chip 060104011301E8 > h 06\n\
tick 1\n\
chip 011F000400041998817172737475767778D404422DF28301CDEA905C1F4C979F97 > h 06 > out 6 success \
> store 4 0/lock 255\n\
chip 010500131100F8 > h 06 > begin 14 2 10 > h 011100130E0A6C0102064301022200F0251235\n\
chip 060104011301E8 > h 06\n\
tick 1\n\
chip 01080004000C02984025 > h 06\n\
chip 010500131200FB > h 06 > h 011100130C0A988001D1D2D3D4D5D6D7251304\n\
chip 060104011301E8 > h 06\n\
tick 1\n\
chip 010B0004000E056C0202FF0068 > h 06 > out 10 success > store 14 0/setpoint:2 240\n\
chip 010500131300FA > h 06 > begin 7 3 13 > h 01120013070B600D00036C0103032501002514E4\n\
chip 060104011301E8 > h 06\n\
tick 1\n\
chip 011F0004000C1998818182838485868788994DA6C20E2101C125C3A5B2D453844D > h 06 > out 7 success \
> store 12 0/lock 255\n\
chip 010500131400FD > h 06\n\
tick 1\n\
chip 010F0004000709600D03006C0203FF0006 > h 06 > out 13 success > store 7 3/switch 0\n\
tick 80\n\
set 18 off > accepted 17 > begin 18 2 17 > h 010E001312076C01020325010025158F\n\
chip 060104011301E8 > h 06\n\
set 3 0 > accepted 18\n\
set 12 off > accepted 19\n\
mode 6 9 > accepted 20\n\
tick 1\n\
chip 01090004000203250300D5 > h 06 > report 2 0/switch 0\n\
chip 010500131500FC > h 06 > begin 3 2 18 > h 010E001303076C01820326010025161E\n\
chip 0108000400050284077706 > h 06 > awake 5\n\
chip 0104011301E8 > h 06\n\
tick 1\n\
chip 010B00040012056C0202FF0074 > h 06 > out 17 success > store 18 0/switch 0\n\
chip 010500131600FF > h 06 > begin 5 1 16 > h 01110013050A6C0101068404000E1001251735\n\
chip 060104011301E8 > h 06\n\
tick 1\n\
chip 010B00040003056C028201011A > h 06\n\
chip 010500131700FE > h 06 > begin 6 2 20 > h 010E001306076C0102034001092518FA\n\
chip 060104011301E8 > h 06\n\
tick 1\n\
chip 010B00040005056C0201FF0060 > h 06 > out 16 success > store 5 0/interval 3600\n\
chip 010500131800F1 > h 06 > h 0109001305028408251952\n\
chip 060104011301E8 > h 06\n\
tick 1\n\
chip 010B00040006056C020202009D > h 06 > out 20 fail\n\
chip 010500131900F0 > h 06 > asleep 5 > begin 12 2 19 > h 010900130C029840251A0C\n\
chip 060104011301E8 > h 06\n\
tick 1\n\
chip 010500131A00F3 > h 06\n\
tick 1\n\
chip 01100004000C0A9880026162636465666797 > h 06 \
> h 012200130C1B9881E0E1E2E3E4E5E6E731EEA6D66F4AB8510233EEDB0A6DF6452A251B67\n\
chip 010B00040003056C0202FF006506 > h 06 > out 18 success > store 3 0/level 0\n\
chip 0104011301E8 > h 06\n\
tick 1\n\
chip 010500131B00F2 > h 06\n\
tick 1\n\
chip 01080004000C02984025 > h 06 > h 011100130C0A988002F1F2F3F4F5F6F7251C28\n\
chip 060104011301E8 > h 06\n\
tick 1\n\
chip 010500131C00F5 > h 06\n\
tick 1\n\
chip 011F0004000C199881919293949596979864D7582BED9002F9A507971E936D8BF8 > h 06 > out 19 success \
> store 12 0/lock 0\n\
tick 89\n\
";
