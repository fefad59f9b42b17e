//! What a provider does, row by row. What is expected was put together by hand, or computed by
//! another program after RFC 4533.
use crate::rows::check_rows;
use std::test::Fail;

/// Spellings, requests, codes, moments and CSNs.
const OWN: &str = "\
^root
# Messages as they are spelled
once dc=x * -; spell 1; drop 1; hand 1 1 => s1@0 empty-end none none
busy => busy-end
^root; first
# What is written later is no part of a refresh.
once dc=x * -; add ou=a,dc=x; spell 1; spell 1; spell 1; drop 1 => w1 s1@1 w2 entry entry-end none none
# Searches by their mode, cookie and hint
once dc=x * ''; once dc=x * rid=001; once dc=x * rid=001,sid=00a; once dc=x * rid=001,sid=00a,; once! dc=x * rid=001,sid=00a,; stay dc=x * ''; stay dc=x * x; stay! dc=x * x; bad dc=x * '' => w1 s1@1 s2@1 s3@1 c4096 s4@1 s5@1 c4096 s6@1 c2
# Codes in their order: the grammar, the base, the number of searches, the cookie
bad dc=y * -; stay dc=y * x; stay ou=b,ou=a,dc=x * x; times 64 once ou=b,ou=a,dc=x * -; stay dc=x * x; stay dc=y * x => w1 c2 c32 c4096 s1@1 s2@1 s3@1 s4@1 s5@1 s6@1 s7@1 s8@1 s9@1 s10@1 s11@1 s12@1 s13@1 s14@1 s15@1 s16@1 s17@1 s18@1 s19@1 s20@1 s21@1 s22@1 s23@1 s24@1 s25@1 s26@1 s27@1 s28@1 s29@1 s30@1 s31@1 s32@1 s33@1 s34@1 s35@1 s36@1 s37@1 s38@1 s39@1 s40@1 s41@1 s42@1 s43@1 s44@1 s45@1 s46@1 s47@1 s48@1 s49@1 s50@1 s51@1 s52@1 s53@1 s54@1 s55@1 s56@1 s57@1 s58@1 s59@1 s60@1 s61@1 s62@1 s63@1 s64@1 c11 c32
# Searches return to an earlier moment.
times 3 once dc=x * -; spell 2; aside; spell 1; spell 2; spell 1; drop 1; drop 2; drop 3; size => w1 s1@1 s2@1 s3@1 entry entry entry-end entry-end dropped entry entry-end entry-end none none dropped 1/1/1
# Writes up to a CSN
add ou=a,dc=x; size; csn 2; upto 19700101000000.000000Z#000000#001#000000; upto 19700101000000.000000Z#000001#001#000000; upto 19700101000000.000000Z#000001#fff#000000; upto 19700101000000.000001Z#000000#000#000000 => w1 w2 2/2/1 19700101000000.000000Z#000002#001#000000 0 1 1 2
# Commits at a root, among writes
commit 9:ou=a,dc=x; commit; add ou=a,dc=x; commit 9:ou=a,dc=x => w1 root root w2 root
";

/// Refreshes by where they begin, and the numbers of searches.
const REFRESHES: &str = "\
# Cookies inside the session log and below it.
^root; first; add ou=a,dc=x; add ou=b,dc=x; add ou=c,dc=x; delete ou=b,dc=x; add ou=d,dc=x
log 1000; once dc=x * 0/1; hand 1 9 => w1 w2 w3 w4 w5 w6 s1@6 +1:dc=x +2:ou=a,dc=x +4:ou=c,dc=x +6:ou=d,dc=x -3 deletes@6
log 1000; once dc=x * 4/1; hand 1 9 => w1 w2 w3 w4 w5 w6 s1@6 +6:ou=d,dc=x -3 deletes@6
log 1000; once dc=x * 5/1; hand 1 9 => w1 w2 w3 w4 w5 w6 s1@6 +6:ou=d,dc=x deletes@6
log 1000; once dc=x * 6/1; hand 1 9 => w1 w2 w3 w4 w5 w6 s1@6 deletes@6
log 2; once dc=x * 3/1; hand 1 9 => w1 w2 w3 w4 w5 w6 s1@6 +4:ou=c,dc=x +6:ou=d,dc=x =1,2 presents@6
log 2; once dc=x * 4/1; hand 1 9 => w1 w2 w3 w4 w5 w6 s1@6 +6:ou=d,dc=x -3 deletes@6
log 1; once dc=x * 4/1; hand 1 9 => w1 w2 w3 w4 w5 w6 s1@6 +6:ou=d,dc=x =1,2,4 presents@6
log 1; once dc=x * 5/1; hand 1 9 => w1 w2 w3 w4 w5 w6 s1@6 +6:ou=d,dc=x deletes@6
log 0; once dc=x * 0/1; hand 1 9 => w1 w2 w3 w4 w5 w6 s1@6 +1:dc=x +2:ou=a,dc=x +4:ou=c,dc=x +6:ou=d,dc=x presents@6
log 0; once dc=x * 5/1; hand 1 9 => w1 w2 w3 w4 w5 w6 s1@6 +6:ou=d,dc=x =1,2,4 presents@6
log 0; once dc=x * 6/1; hand 1 9 => w1 w2 w3 w4 w5 w6 s1@6 deletes@6
# Cookies that name no content.
# A cookie of another history, or above the last write, is refused, and with a hint all is sent.
once dc=x * 4/2; once! dc=x * 4/2; hand 1 9; once dc=x * 7/1; once! dc=x * 7/1; hand 1 9; once dc=x * 0/0; once! dc=x * 0/0; hand 1 9 => w1 w2 w3 w4 w5 w6 c4096 s1@6 +1:dc=x +2:ou=a,dc=x +4:ou=c,dc=x +6:ou=d,dc=x presents@6 c4096 s1@6 +1:dc=x +2:ou=a,dc=x +4:ou=c,dc=x +6:ou=d,dc=x presents@6 c4096 s1@6 +1:dc=x +2:ou=a,dc=x +4:ou=c,dc=x +6:ou=d,dc=x presents@6
# A blank cookie counts as none.
once dc=x * ''; hand 1 9; once dc=x * rid=001; hand 1 9; once dc=x * rid=001,sid=00a; hand 1 9 => w1 w2 w3 w4 w5 w6 s1@6 +1:dc=x +2:ou=a,dc=x +4:ou=c,dc=x +6:ou=d,dc=x presents@6 s1@6 +1:dc=x +2:ou=a,dc=x +4:ou=c,dc=x +6:ou=d,dc=x presents@6 s1@6 +1:dc=x +2:ou=a,dc=x +4:ou=c,dc=x +6:ou=d,dc=x presents@6
# A subtree that was renamed.
^root; first; add ou=a,dc=x; add ou=b,dc=x; add ou=c,dc=x; delete ou=b,dc=x; add ou=d,dc=x; add ou=e,ou=a,dc=x; rename ou=a,dc=x ou=z
log 1000; once dc=x * 7/1; hand 1 9 => w1 w2 w3 w4 w5 w6 w7 w8 s1@8 +2:ou=z,dc=x +7:ou=e,ou=z,dc=x deletes@8
log 2; once dc=x * 7/1; hand 1 9 => w1 w2 w3 w4 w5 w6 w7 w8 s1@8 +2:ou=z,dc=x +7:ou=e,ou=z,dc=x deletes@8
log 1; once dc=x * 7/1; hand 1 9 => w1 w2 w3 w4 w5 w6 w7 w8 s1@8 +2:ou=z,dc=x +7:ou=e,ou=z,dc=x =1,4,6 presents@8
log 1; once dc=x * 8/1; hand 1 9 => w1 w2 w3 w4 w5 w6 w7 w8 s1@8 deletes@8
# Identities in two sets.
^root; first; addto 300
# A set that is full goes before the entry, and the rest before the end.
add ou=last,dc=x; log 0; once dc=x * 300/1; hand 1 9 => w1 w300 w301 s1@301 =1,2,3,4,5,6,7,8,9,10,11,12,13,14,15,16,17,18,19,20,21,22,23,24,25,26,27,28,29,30,31,32,33,34,35,36,37,38,39,40,41,42,43,44,45,46,47,48,49,50,51,52,53,54,55,56,57,58,59,60,61,62,63,64,65,66,67,68,69,70,71,72,73,74,75,76,77,78,79,80,81,82,83,84,85,86,87,88,89,90,91,92,93,94,95,96,97,98,99,100,101,102,103,104,105,106,107,108,109,110,111,112,113,114,115,116,117,118,119,120,121,122,123,124,125,126,127,128,129,130,131,132,133,134,135,136,137,138,139,140,141,142,143,144,145,146,147,148,149,150,151,152,153,154,155,156,157,158,159,160,161,162,163,164,165,166,167,168,169,170,171,172,173,174,175,176,177,178,179,180,181,182,183,184,185,186,187,188,189,190,191,192,193,194,195,196,197,198,199,200,201,202,203,204,205,206,207,208,209,210,211,212,213,214,215,216,217,218,219,220,221,222,223,224,225,226,227,228,229,230,231,232,233,234,235,236,237,238,239,240,241,242,243,244,245,246,247,248,249,250,251,252,253,254,255,256 +301:ou=last,dc=x =257,258,259,260,261,262,263,264,265,266,267,268,269,270,271,272,273,274,275,276,277,278,279,280,281,282,283,284,285,286,287,288,289,290,291,292,293,294,295,296,297,298,299,300 presents@301
# Numbers of searches and of writes.
^root; first; add ou=a,dc=x
# A number of a search that was dropped is given again, the least first.
once dc=x * ''; once dc=x * ''; once dc=x * ''; once dc=x * ''; drop 3; drop 2; drop 2; drop 0; hand 2 1; once dc=x * ''; once dc=x * ''; once dc=x * '' => w1 w2 s1@2 s2@2 s3@2 s4@2 dropped dropped none none none s2@2 s3@2 s5@2
# A write that is refused has no number.
add ou=a,dc=x; delete dc=x; delete ou=b,dc=x; delete ou=a,dc=x => w1 w2 c68 c66 c32 w3
^root
# Before all writes and after each
once dc=x * -; hand 1 9; first; once dc=x * -; hand 1 9; add ou=a,dc=x; once dc=x * -; hand 1 9; person cn=k,ou=a,dc=x; once dc=x * -; hand 1 9; rename ou=a,dc=x ou=b; once dc=x * -; hand 1 9; replace cn=k,ou=b,dc=x sn=t; once dc=x * -; hand 1 9; delete cn=k,ou=b,dc=x; once dc=x * -; hand 1 9 => s1@0 presents@0 w1 s1@1 +1:dc=x presents@1 w2 s1@2 +1:dc=x +2:ou=a,dc=x presents@2 w3 s1@3 +1:dc=x +2:ou=a,dc=x +3:cn=k,ou=a,dc=x presents@3 w4 s1@4 +1:dc=x +2:ou=b,dc=x +3:cn=k,ou=b,dc=x presents@4 w5 s1@5 +1:dc=x +2:ou=b,dc=x +3:cn=k,ou=b,dc=x presents@5 w6 s1@6 +1:dc=x +2:ou=b,dc=x presents@6
once one:DC=x (!(ou=b)) -; hand 1 9; first; once one:DC=x (!(ou=b)) -; hand 1 9; add ou=a,dc=x; once one:DC=x (!(ou=b)) -; hand 1 9; person cn=k,ou=a,dc=x; once one:DC=x (!(ou=b)) -; hand 1 9; rename ou=a,dc=x ou=b; once one:DC=x (!(ou=b)) -; hand 1 9; replace cn=k,ou=b,dc=x sn=t; once one:DC=x (!(ou=b)) -; hand 1 9; delete cn=k,ou=b,dc=x; once one:DC=x (!(ou=b)) -; hand 1 9 => s1@0 presents@0 w1 s1@1 presents@1 w2 s1@2 +2:ou=a,dc=x presents@2 w3 s1@3 +2:ou=a,dc=x presents@3 w4 s1@4 presents@4 w5 s1@5 presents@5 w6 s1@6 presents@6
once base:cn=k,ou=b,dc=x (sn=T) -; hand 1 9; first; once base:cn=k,ou=b,dc=x (sn=T) -; hand 1 9; add ou=a,dc=x; once base:cn=k,ou=b,dc=x (sn=T) -; hand 1 9; person cn=k,ou=a,dc=x; once base:cn=k,ou=b,dc=x (sn=T) -; hand 1 9; rename ou=a,dc=x ou=b; once base:cn=k,ou=b,dc=x (sn=T) -; hand 1 9; replace cn=k,ou=b,dc=x sn=t; once base:cn=k,ou=b,dc=x (sn=T) -; hand 1 9; delete cn=k,ou=b,dc=x; once base:cn=k,ou=b,dc=x (sn=T) -; hand 1 9 => s1@0 presents@0 w1 s1@1 presents@1 w2 s1@2 presents@2 w3 s1@3 presents@3 w4 s1@4 presents@4 w5 s1@5 +3:cn=k,ou=b,dc=x presents@5 w6 s1@6 presents@6
";

/// Searches that stay.
const LATER: &str = "\
# Messages of later writes.
^root; first; add ou=a,dc=x; add ou=b,ou=a,dc=x
# One message for each identity, in ascending order, and the cookie of the write with the last one.
stay dc=x * ''; hand 1 9; rename ou=a,dc=x ou=z; hand 1 1; hand 1 9; delete ou=b,ou=z,dc=x; add ou=c,dc=x; hand 1 9 => w1 w2 w3 s1@3 +1:dc=x +2:ou=a,dc=x +3:ou=b,ou=a,dc=x on-presents@3 nothing w4 ~2:ou=z,dc=x ~3:ou=b,ou=z,dc=x@4 nothing w5 w6 !3:ou=b,ou=z,dc=x@5 +6:ou=c,dc=x@6 nothing
# What enters is added, what stays is modified, what leaves is deleted with the name that it had.
stay dc=x (description=d) ''; replace ou=a,dc=x description=d; replace ou=b,ou=a,dc=x description=d; rename ou=a,dc=x ou=z; replace ou=z,dc=x description=e; delete ou=b,ou=z,dc=x; hand 1 20 => w1 w2 w3 s1@3 w4 w5 w6 w7 w8 on-presents@3 +2:ou=a,dc=x@4 +3:ou=b,ou=a,dc=x@5 ~2:ou=z,dc=x ~3:ou=b,ou=z,dc=x@6 !2:ou=z,dc=x@7 !3:ou=b,ou=z,dc=x@8 nothing
# A name that enters, and one that leaves, in one write that changes neither entry otherwise.
stay dc=x (ou=z) ''; hand 1 9; rename ou=a,dc=x ou=z; rename ou=z,dc=x ou=y; hand 1 9 => w1 w2 w3 s1@3 on-presents@3 nothing w4 w5 +2:ou=z,dc=x@4 !2:ou=z,dc=x@5 nothing
# A write that changes nothing in the content sends nothing, and so does one that is refused.
stay dc=x (ou=c) ''; hand 1 9; replace ou=a,dc=x description=d; delete dc=x; add ou=c,dc=x; replace ou=c,dc=x description=d; hand 1 9; rename ou=a,dc=x ou=z; hand 1 9 => w1 w2 w3 s1@3 on-presents@3 nothing w4 c66 w5 w6 +5:ou=c,dc=x@5 ~5:ou=c,dc=x@6 nothing w7 nothing
# A unit moves below another one and back.
add ou=c,dc=x; stay dc=x (!(ou=c)) ''; hand 1 9; rename ou=a,dc=x ou=a ou=c,dc=x; rename ou=a,ou=c,dc=x ou=a dc=x; hand 1 9 => w1 w2 w3 w4 s1@4 +1:dc=x +2:ou=a,dc=x +3:ou=b,ou=a,dc=x on-presents@4 nothing w5 w6 ~2:ou=a,ou=c,dc=x ~3:ou=b,ou=a,ou=c,dc=x@5 ~2:ou=a,dc=x ~3:ou=b,ou=a,dc=x@6 nothing
# Searches beside others, and after a refresh of each kind.
# A search that does not stay gets nothing of later writes.
once dc=x * ''; add ou=c,dc=x; hand 1 9; hand 1 9 => w1 w2 w3 s1@3 w4 +1:dc=x +2:ou=a,dc=x +3:ou=b,ou=a,dc=x presents@3 none
# After a refresh that a cookie serves.
stay dc=x * 2/1; add ou=c,dc=x; hand 1 9; hand 1 1; delete ou=c,dc=x; hand 1 9 => w1 w2 w3 s1@3 w4 +3:ou=b,ou=a,dc=x on-deletes@3 +4:ou=c,dc=x@4 nothing nothing w5 !4:ou=c,dc=x@5 nothing
# And after a present phase.
add ou=c,dc=x; log 0; stay dc=x * 2/1; delete ou=c,dc=x; hand 1 9 => w1 w2 w3 w4 s1@4 w5 +3:ou=b,ou=a,dc=x +4:ou=c,dc=x =1,2 on-presents@4 !4:ou=c,dc=x@5 nothing
# A cookie that does not serve is refused in this mode too, and a hint opens the search.
stay dc=x * x; stay! dc=x * x; hand 1 2 => w1 w2 w3 c4096 s1@3 +1:dc=x +2:ou=a,dc=x
# Two searches get what is theirs of one write.
stay dc=x (ou=a) ''; stay dc=x (!(ou=a)) ''; hand 1 9; hand 2 9; rename ou=a,dc=x ou=c; hand 2 9; hand 1 9 => w1 w2 w3 s1@3 s2@3 +2:ou=a,dc=x on-presents@3 nothing +1:dc=x +3:ou=b,ou=a,dc=x on-presents@3 nothing w4 +2:ou=c,dc=x ~3:ou=b,ou=c,dc=x@4 nothing !2:ou=a,dc=x@4 nothing
# A search that is dropped leaves its number, and the next one with it begins anew.
stay dc=x * ''; add ou=c,dc=x; drop 1; drop 1; hand 1 9; stay dc=x (ou=c) ''; hand 1 9; delete ou=c,dc=x; hand 1 9 => w1 w2 w3 s1@3 w4 dropped none none s1@4 +4:ou=c,dc=x on-presents@4 nothing w5 !4:ou=c,dc=x@5 nothing
# All 64 searches get a message of one write.
times 64 stay dc=x * ''; stay dc=x * ''; add ou=c,dc=x; hand 1 9; hand 64 9; drop 63; stay dc=x (ou=c) ''; hand 63 9 => w1 w2 w3 s1@3 s2@3 s3@3 s4@3 s5@3 s6@3 s7@3 s8@3 s9@3 s10@3 s11@3 s12@3 s13@3 s14@3 s15@3 s16@3 s17@3 s18@3 s19@3 s20@3 s21@3 s22@3 s23@3 s24@3 s25@3 s26@3 s27@3 s28@3 s29@3 s30@3 s31@3 s32@3 s33@3 s34@3 s35@3 s36@3 s37@3 s38@3 s39@3 s40@3 s41@3 s42@3 s43@3 s44@3 s45@3 s46@3 s47@3 s48@3 s49@3 s50@3 s51@3 s52@3 s53@3 s54@3 s55@3 s56@3 s57@3 s58@3 s59@3 s60@3 s61@3 s62@3 s63@3 s64@3 c11 w4 +1:dc=x +2:ou=a,dc=x +3:ou=b,ou=a,dc=x on-presents@3 +4:ou=c,dc=x@4 nothing +1:dc=x +2:ou=a,dc=x +3:ou=b,ou=a,dc=x on-presents@3 +4:ou=c,dc=x@4 nothing dropped s63@4 +4:ou=c,dc=x on-presents@4 nothing
# Queues with n messages at most.
# No message fits into a queue of none; a write that sends nothing is no cause.
queue 0; stay dc=x (ou=c) ''; hand 1 9; replace ou=a,dc=x description=d; hand 1 9; add ou=c,dc=x; hand 1 9; hand 1 9 => w1 w2 w3 s1@3 on-presents@3 nothing w4 nothing w5 busy none
# The queue is full with three messages, and a fourth ends the search. Its number is free then.
queue 3; stay dc=x * ''; hand 1 9; add ou=c,dc=x; add ou=d,dc=x; add ou=e,dc=x; hand 1 1; add ou=f,dc=x; hand 1 1; add ou=g,dc=x; add ou=h,dc=x; hand 1 9; stay dc=x (ou=h) ''; hand 1 9 => w1 w2 w3 s1@3 +1:dc=x +2:ou=a,dc=x +3:ou=b,ou=a,dc=x on-presents@3 nothing w4 w5 w6 +4:ou=c,dc=x@4 w7 +5:ou=d,dc=x@5 w8 w9 busy s1@9 +9:ou=h,dc=x on-presents@9 nothing
# So it is with a group of three, and of two where two are pending.
add ou=c,ou=a,dc=x; queue 3; stay dc=x (ou=*) ''; stay dc=x (ou=*) ''; hand 1 9; hand 2 9; rename ou=a,dc=x ou=z; hand 1 2; replace ou=z,dc=x description=d; hand 2 9; hand 1 9 => w1 w2 w3 w4 s1@4 s2@4 +2:ou=a,dc=x +3:ou=b,ou=a,dc=x +4:ou=c,ou=a,dc=x on-presents@4 nothing +2:ou=a,dc=x +3:ou=b,ou=a,dc=x +4:ou=c,ou=a,dc=x on-presents@4 nothing w5 ~2:ou=z,dc=x ~3:ou=b,ou=z,dc=x w6 busy ~4:ou=c,ou=z,dc=x@5 ~2:ou=z,dc=x@6 nothing
# What of the refresh is not handed out counts for no limit, and is gone where the search is over.
queue 1; stay dc=x * ''; hand 1 1; add ou=c,dc=x; hand 1 1; add ou=d,dc=x; hand 1 9; hand 1 9 => w1 w2 w3 s1@3 +1:dc=x w4 +2:ou=a,dc=x w5 busy none
# A lower limit drops nothing; the limit of the next write is the lower one.
stay dc=x * ''; hand 1 9; add ou=c,dc=x; add ou=d,dc=x; add ou=e,dc=x; queue 1; hand 1 1; stay dc=x (ou=f) ''; hand 2 9; add ou=f,dc=x; hand 1 9; hand 2 9 => w1 w2 w3 s1@3 +1:dc=x +2:ou=a,dc=x +3:ou=b,ou=a,dc=x on-presents@3 nothing w4 w5 w6 +4:ou=c,dc=x@4 s2@6 on-presents@6 nothing w7 busy +7:ou=f,dc=x@7 nothing
# A higher limit holds from the next write on.
queue 1; stay dc=x * ''; hand 1 9; add ou=c,dc=x; queue 2; add ou=d,dc=x; hand 1 9 => w1 w2 w3 s1@3 +1:dc=x +2:ou=a,dc=x +3:ou=b,ou=a,dc=x on-presents@3 nothing w4 w5 +4:ou=c,dc=x@4 +5:ou=d,dc=x@5 nothing
# A write that is refused, or sends nothing, is no cause where the limit is lower than what is pending.
stay dc=x (ou=c) ''; hand 1 9; add ou=c,dc=x; replace ou=c,dc=x description=d; queue 0; add ou=c,dc=x; replace ou=a,dc=x description=d; hand 1 9 => w1 w2 w3 s1@3 on-presents@3 nothing w4 w5 c68 w6 +4:ou=c,dc=x@4 ~4:ou=c,dc=x@5 nothing
# A search that is over takes its place until its end is handed out or it is dropped.
queue 0; times 64 stay dc=x * ''; add ou=c,dc=x; stay dc=x * ''; drop 7; stay dc=x (ou=d) ''; hand 9 9; stay dc=x (ou=d) ''; hand 9 9; hand 7 9 => w1 w2 w3 s1@3 s2@3 s3@3 s4@3 s5@3 s6@3 s7@3 s8@3 s9@3 s10@3 s11@3 s12@3 s13@3 s14@3 s15@3 s16@3 s17@3 s18@3 s19@3 s20@3 s21@3 s22@3 s23@3 s24@3 s25@3 s26@3 s27@3 s28@3 s29@3 s30@3 s31@3 s32@3 s33@3 s34@3 s35@3 s36@3 s37@3 s38@3 s39@3 s40@3 s41@3 s42@3 s43@3 s44@3 s45@3 s46@3 s47@3 s48@3 s49@3 s50@3 s51@3 s52@3 s53@3 s54@3 s55@3 s56@3 s57@3 s58@3 s59@3 s60@3 s61@3 s62@3 s63@3 s64@3 w4 c11 dropped s7@4 busy s9@4 on-presents@4 nothing on-presents@4 nothing
# Queues with 16 MiB at most. Each message weighs 64, its name, and its types and values but for the operational ones.
^root; first; add ou=a,dc=x; add ou=b,ou=a,dc=x; add ou=c,ou=a,dc=x; add ou=d,ou=a,dc=x; add ou=e,ou=a,dc=x; add ou=r,dc=x; swell ou=b,ou=a,dc=x 65407; swell ou=c,ou=a,dc=x 65407; swell ou=d,ou=a,dc=x 65407; swell ou=e,ou=a,dc=x 65407
# They fit, and so do 2,048 more. Where one of them is handed out another fits, and one that weighs
# 65,529 does not.
stay dc=x (description=*) ''; hand 1 9; swing ou=a ou=z 64; swell ou=r,dc=x 1932; hand 1 1; swell ou=b,ou=a,dc=x 65407; hand 1 1; swell ou=b,ou=a,dc=x 65408; hand 1 9 => w1 w2 w3 w4 w5 w6 w7 w8 w9 w10 w11 s1@11 +3:ou=b,ou=a,dc=x +4:ou=c,ou=a,dc=x +5:ou=d,ou=a,dc=x +6:ou=e,ou=a,dc=x on-presents@11 nothing w75 w76 ~3:ou=b,ou=z,dc=x w77 ~4:ou=c,ou=z,dc=x w78 busy
";

/// Searches that stay, each opened after some writes, with a limit of n messages of later writes,
/// and messages that are handed out between the writes.
const SEQUENCES: &str = "\
^root
queue 4096; stay dc=x * -; first; add ou=a,dc=x; person cn=k,ou=a,dc=x; rename ou=a,dc=x ou=b; replace cn=k,ou=b,dc=x sn=t; delete cn=k,ou=b,dc=x; hand 1 20 => s1@0 w1 w2 w3 w4 w5 w6 on-presents@0 +1:dc=x@1 +2:ou=a,dc=x@2 +3:cn=k,ou=a,dc=x@3 ~2:ou=b,dc=x ~3:cn=k,ou=b,dc=x@4 ~3:cn=k,ou=b,dc=x@5 !3:cn=k,ou=b,dc=x@6 nothing
queue 4096; stay dc=x * -; first; hand 1 9; add ou=a,dc=x; hand 1 9; person cn=k,ou=a,dc=x; hand 1 9; rename ou=a,dc=x ou=b; hand 1 9; replace cn=k,ou=b,dc=x sn=t; hand 1 9; delete cn=k,ou=b,dc=x; hand 1 9; hand 1 20 => s1@0 w1 on-presents@0 +1:dc=x@1 nothing w2 +2:ou=a,dc=x@2 nothing w3 +3:cn=k,ou=a,dc=x@3 nothing w4 ~2:ou=b,dc=x ~3:cn=k,ou=b,dc=x@4 nothing w5 ~3:cn=k,ou=b,dc=x@5 nothing w6 !3:cn=k,ou=b,dc=x@6 nothing nothing
queue 4096; stay dc=x * -; first; hand 1 1; add ou=a,dc=x; hand 1 1; person cn=k,ou=a,dc=x; hand 1 1; rename ou=a,dc=x ou=b; hand 1 1; replace cn=k,ou=b,dc=x sn=t; hand 1 1; delete cn=k,ou=b,dc=x; hand 1 1; hand 1 20 => s1@0 w1 on-presents@0 w2 +1:dc=x@1 w3 +2:ou=a,dc=x@2 w4 +3:cn=k,ou=a,dc=x@3 w5 ~2:ou=b,dc=x w6 ~3:cn=k,ou=b,dc=x@4 ~3:cn=k,ou=b,dc=x@5 !3:cn=k,ou=b,dc=x@6 nothing
queue 4096; stay dc=x * -; first; hand 1 2; add ou=a,dc=x; person cn=k,ou=a,dc=x; hand 1 1; rename ou=a,dc=x ou=b; replace cn=k,ou=b,dc=x sn=t; hand 1 3; delete cn=k,ou=b,dc=x; hand 1 20 => s1@0 w1 on-presents@0 +1:dc=x@1 w2 w3 +2:ou=a,dc=x@2 w4 w5 +3:cn=k,ou=a,dc=x@3 ~2:ou=b,dc=x ~3:cn=k,ou=b,dc=x@4 w6 ~3:cn=k,ou=b,dc=x@5 !3:cn=k,ou=b,dc=x@6 nothing
queue 4096; first; stay dc=x * -; add ou=a,dc=x; person cn=k,ou=a,dc=x; hand 1 1; rename ou=a,dc=x ou=b; hand 1 2; replace cn=k,ou=b,dc=x sn=t; hand 1 1; delete cn=k,ou=b,dc=x; hand 1 20 => w1 s1@1 w2 w3 +1:dc=x w4 on-presents@1 +2:ou=a,dc=x@2 w5 +3:cn=k,ou=a,dc=x@3 w6 ~2:ou=b,dc=x ~3:cn=k,ou=b,dc=x@4 ~3:cn=k,ou=b,dc=x@5 !3:cn=k,ou=b,dc=x@6 nothing
queue 4096; first; add ou=a,dc=x; stay dc=x * -; person cn=k,ou=a,dc=x; hand 1 1; rename ou=a,dc=x ou=b; replace cn=k,ou=b,dc=x sn=t; delete cn=k,ou=b,dc=x; hand 1 2; hand 1 20 => w1 w2 s1@2 w3 +1:dc=x w4 w5 w6 +2:ou=a,dc=x on-presents@2 +3:cn=k,ou=a,dc=x@3 ~2:ou=b,dc=x ~3:cn=k,ou=b,dc=x@4 ~3:cn=k,ou=b,dc=x@5 !3:cn=k,ou=b,dc=x@6 nothing
queue 4096; first; add ou=a,dc=x; person cn=k,ou=a,dc=x; stay dc=x * -; rename ou=a,dc=x ou=b; hand 1 2; replace cn=k,ou=b,dc=x sn=t; hand 1 3; delete cn=k,ou=b,dc=x; hand 1 20 => w1 w2 w3 s1@3 w4 +1:dc=x +2:ou=a,dc=x w5 +3:cn=k,ou=a,dc=x on-presents@3 ~2:ou=b,dc=x w6 ~3:cn=k,ou=b,dc=x@4 ~3:cn=k,ou=b,dc=x@5 !3:cn=k,ou=b,dc=x@6 nothing
queue 4096; first; add ou=a,dc=x; person cn=k,ou=a,dc=x; rename ou=a,dc=x ou=b; replace cn=k,ou=b,dc=x sn=t; delete cn=k,ou=b,dc=x; stay dc=x * -; hand 1 20 => w1 w2 w3 w4 w5 w6 s1@6 +1:dc=x +2:ou=b,dc=x on-presents@6 nothing
queue 0; stay dc=x * -; first; hand 1 1; add ou=a,dc=x; hand 1 1; person cn=k,ou=a,dc=x; hand 1 1; rename ou=a,dc=x ou=b; hand 1 1; replace cn=k,ou=b,dc=x sn=t; hand 1 1; delete cn=k,ou=b,dc=x; hand 1 1; hand 1 20 => s1@0 w1 busy w2 none w3 none w4 none w5 none w6 none none
queue 1; stay dc=x * -; first; hand 1 2; add ou=a,dc=x; hand 1 1; person cn=k,ou=a,dc=x; hand 1 1; rename ou=a,dc=x ou=b; hand 1 1; replace cn=k,ou=b,dc=x sn=t; hand 1 1; delete cn=k,ou=b,dc=x; hand 1 1; hand 1 20 => s1@0 w1 on-presents@0 +1:dc=x@1 w2 +2:ou=a,dc=x@2 w3 +3:cn=k,ou=a,dc=x@3 w4 busy w5 none w6 none none
queue 2; first; stay dc=x * -; add ou=a,dc=x; hand 1 9; person cn=k,ou=a,dc=x; hand 1 9; rename ou=a,dc=x ou=b; hand 1 1; replace cn=k,ou=b,dc=x sn=t; hand 1 9; delete cn=k,ou=b,dc=x; hand 1 9; hand 1 20 => w1 s1@1 w2 +1:dc=x on-presents@1 +2:ou=a,dc=x@2 nothing w3 +3:cn=k,ou=a,dc=x@3 nothing w4 ~2:ou=b,dc=x w5 ~3:cn=k,ou=b,dc=x@4 ~3:cn=k,ou=b,dc=x@5 nothing w6 !3:cn=k,ou=b,dc=x@6 nothing nothing
queue 2; first; add ou=a,dc=x; stay dc=x * -; person cn=k,ou=a,dc=x; hand 1 9; rename ou=a,dc=x ou=b; replace cn=k,ou=b,dc=x sn=t; hand 1 1; delete cn=k,ou=b,dc=x; hand 1 1; hand 1 20 => w1 w2 s1@2 w3 +1:dc=x +2:ou=a,dc=x on-presents@2 +3:cn=k,ou=a,dc=x@3 nothing w4 w5 busy w6 none none
queue 3; first; add ou=a,dc=x; stay dc=x * -; person cn=k,ou=a,dc=x; rename ou=a,dc=x ou=b; hand 1 9; replace cn=k,ou=b,dc=x sn=t; delete cn=k,ou=b,dc=x; hand 1 9; hand 1 20 => w1 w2 s1@2 w3 w4 +1:dc=x +2:ou=a,dc=x on-presents@2 +3:cn=k,ou=a,dc=x@3 ~2:ou=b,dc=x ~3:cn=k,ou=b,dc=x@4 nothing w5 w6 ~3:cn=k,ou=b,dc=x@5 !3:cn=k,ou=b,dc=x@6 nothing nothing
queue 1; first; add ou=a,dc=x; person cn=k,ou=a,dc=x; stay dc=x * -; rename ou=a,dc=x ou=b; replace cn=k,ou=b,dc=x sn=t; delete cn=k,ou=b,dc=x; hand 1 9; hand 1 20 => w1 w2 w3 s1@3 w4 w5 w6 busy none
queue 4096; stay one:DC=x (!(ou=b)) -; first; add ou=a,dc=x; person cn=k,ou=a,dc=x; rename ou=a,dc=x ou=b; replace cn=k,ou=b,dc=x sn=t; delete cn=k,ou=b,dc=x; hand 1 20 => s1@0 w1 w2 w3 w4 w5 w6 on-presents@0 +2:ou=a,dc=x@2 !2:ou=a,dc=x@4 nothing
queue 4096; stay one:DC=x (!(ou=b)) -; first; hand 1 9; add ou=a,dc=x; hand 1 9; person cn=k,ou=a,dc=x; hand 1 9; rename ou=a,dc=x ou=b; hand 1 9; replace cn=k,ou=b,dc=x sn=t; hand 1 9; delete cn=k,ou=b,dc=x; hand 1 9; hand 1 20 => s1@0 w1 on-presents@0 nothing w2 +2:ou=a,dc=x@2 nothing w3 nothing w4 !2:ou=a,dc=x@4 nothing w5 nothing w6 nothing nothing
queue 4096; stay one:DC=x (!(ou=b)) -; first; hand 1 1; add ou=a,dc=x; hand 1 1; person cn=k,ou=a,dc=x; hand 1 1; rename ou=a,dc=x ou=b; hand 1 1; replace cn=k,ou=b,dc=x sn=t; hand 1 1; delete cn=k,ou=b,dc=x; hand 1 1; hand 1 20 => s1@0 w1 on-presents@0 w2 +2:ou=a,dc=x@2 w3 nothing w4 !2:ou=a,dc=x@4 w5 nothing w6 nothing nothing
queue 4096; stay one:DC=x (!(ou=b)) -; first; hand 1 2; add ou=a,dc=x; person cn=k,ou=a,dc=x; hand 1 1; rename ou=a,dc=x ou=b; replace cn=k,ou=b,dc=x sn=t; hand 1 3; delete cn=k,ou=b,dc=x; hand 1 20 => s1@0 w1 on-presents@0 nothing w2 w3 +2:ou=a,dc=x@2 w4 w5 !2:ou=a,dc=x@4 nothing w6 nothing
queue 4096; first; stay one:DC=x (!(ou=b)) -; add ou=a,dc=x; person cn=k,ou=a,dc=x; hand 1 1; rename ou=a,dc=x ou=b; hand 1 2; replace cn=k,ou=b,dc=x sn=t; hand 1 1; delete cn=k,ou=b,dc=x; hand 1 20 => w1 s1@1 w2 w3 on-presents@1 w4 +2:ou=a,dc=x@2 !2:ou=a,dc=x@4 w5 nothing w6 nothing
queue 4096; first; add ou=a,dc=x; stay one:DC=x (!(ou=b)) -; person cn=k,ou=a,dc=x; hand 1 1; rename ou=a,dc=x ou=b; replace cn=k,ou=b,dc=x sn=t; delete cn=k,ou=b,dc=x; hand 1 2; hand 1 20 => w1 w2 s1@2 w3 +2:ou=a,dc=x w4 w5 w6 on-presents@2 !2:ou=a,dc=x@4 nothing
queue 4096; first; add ou=a,dc=x; person cn=k,ou=a,dc=x; stay one:DC=x (!(ou=b)) -; rename ou=a,dc=x ou=b; hand 1 2; replace cn=k,ou=b,dc=x sn=t; hand 1 3; delete cn=k,ou=b,dc=x; hand 1 20 => w1 w2 w3 s1@3 w4 +2:ou=a,dc=x on-presents@3 w5 !2:ou=a,dc=x@4 nothing w6 nothing
queue 4096; first; add ou=a,dc=x; person cn=k,ou=a,dc=x; rename ou=a,dc=x ou=b; replace cn=k,ou=b,dc=x sn=t; delete cn=k,ou=b,dc=x; stay one:DC=x (!(ou=b)) -; hand 1 20 => w1 w2 w3 w4 w5 w6 s1@6 on-presents@6 nothing
queue 0; stay one:DC=x (!(ou=b)) -; first; hand 1 1; add ou=a,dc=x; hand 1 1; person cn=k,ou=a,dc=x; hand 1 1; rename ou=a,dc=x ou=b; hand 1 1; replace cn=k,ou=b,dc=x sn=t; hand 1 1; delete cn=k,ou=b,dc=x; hand 1 1; hand 1 20 => s1@0 w1 on-presents@0 w2 busy w3 none w4 none w5 none w6 none none
queue 1; stay one:DC=x (!(ou=b)) -; first; hand 1 2; add ou=a,dc=x; hand 1 1; person cn=k,ou=a,dc=x; hand 1 1; rename ou=a,dc=x ou=b; hand 1 1; replace cn=k,ou=b,dc=x sn=t; hand 1 1; delete cn=k,ou=b,dc=x; hand 1 1; hand 1 20 => s1@0 w1 on-presents@0 nothing w2 +2:ou=a,dc=x@2 w3 nothing w4 !2:ou=a,dc=x@4 w5 nothing w6 nothing nothing
queue 2; first; stay one:DC=x (!(ou=b)) -; add ou=a,dc=x; hand 1 9; person cn=k,ou=a,dc=x; hand 1 9; rename ou=a,dc=x ou=b; hand 1 1; replace cn=k,ou=b,dc=x sn=t; hand 1 9; delete cn=k,ou=b,dc=x; hand 1 9; hand 1 20 => w1 s1@1 w2 on-presents@1 +2:ou=a,dc=x@2 nothing w3 nothing w4 !2:ou=a,dc=x@4 w5 nothing w6 nothing nothing
queue 2; first; add ou=a,dc=x; stay one:DC=x (!(ou=b)) -; person cn=k,ou=a,dc=x; hand 1 9; rename ou=a,dc=x ou=b; replace cn=k,ou=b,dc=x sn=t; hand 1 1; delete cn=k,ou=b,dc=x; hand 1 1; hand 1 20 => w1 w2 s1@2 w3 +2:ou=a,dc=x on-presents@2 nothing w4 w5 !2:ou=a,dc=x@4 w6 nothing nothing
queue 3; first; add ou=a,dc=x; stay one:DC=x (!(ou=b)) -; person cn=k,ou=a,dc=x; rename ou=a,dc=x ou=b; hand 1 9; replace cn=k,ou=b,dc=x sn=t; delete cn=k,ou=b,dc=x; hand 1 9; hand 1 20 => w1 w2 s1@2 w3 w4 +2:ou=a,dc=x on-presents@2 !2:ou=a,dc=x@4 nothing w5 w6 nothing nothing
queue 1; first; add ou=a,dc=x; person cn=k,ou=a,dc=x; stay one:DC=x (!(ou=b)) -; rename ou=a,dc=x ou=b; replace cn=k,ou=b,dc=x sn=t; delete cn=k,ou=b,dc=x; hand 1 9; hand 1 20 => w1 w2 w3 s1@3 w4 w5 w6 +2:ou=a,dc=x on-presents@3 !2:ou=a,dc=x@4 nothing nothing
queue 4096; stay base:cn=k,ou=b,dc=x (sn=T) -; first; add ou=a,dc=x; person cn=k,ou=a,dc=x; rename ou=a,dc=x ou=b; replace cn=k,ou=b,dc=x sn=t; delete cn=k,ou=b,dc=x; hand 1 20 => s1@0 w1 w2 w3 w4 w5 w6 on-presents@0 +3:cn=k,ou=b,dc=x@5 !3:cn=k,ou=b,dc=x@6 nothing
queue 4096; stay base:cn=k,ou=b,dc=x (sn=T) -; first; hand 1 9; add ou=a,dc=x; hand 1 9; person cn=k,ou=a,dc=x; hand 1 9; rename ou=a,dc=x ou=b; hand 1 9; replace cn=k,ou=b,dc=x sn=t; hand 1 9; delete cn=k,ou=b,dc=x; hand 1 9; hand 1 20 => s1@0 w1 on-presents@0 nothing w2 nothing w3 nothing w4 nothing w5 +3:cn=k,ou=b,dc=x@5 nothing w6 !3:cn=k,ou=b,dc=x@6 nothing nothing
queue 4096; stay base:cn=k,ou=b,dc=x (sn=T) -; first; hand 1 1; add ou=a,dc=x; hand 1 1; person cn=k,ou=a,dc=x; hand 1 1; rename ou=a,dc=x ou=b; hand 1 1; replace cn=k,ou=b,dc=x sn=t; hand 1 1; delete cn=k,ou=b,dc=x; hand 1 1; hand 1 20 => s1@0 w1 on-presents@0 w2 nothing w3 nothing w4 nothing w5 +3:cn=k,ou=b,dc=x@5 w6 !3:cn=k,ou=b,dc=x@6 nothing
queue 4096; stay base:cn=k,ou=b,dc=x (sn=T) -; first; hand 1 2; add ou=a,dc=x; person cn=k,ou=a,dc=x; hand 1 1; rename ou=a,dc=x ou=b; replace cn=k,ou=b,dc=x sn=t; hand 1 3; delete cn=k,ou=b,dc=x; hand 1 20 => s1@0 w1 on-presents@0 nothing w2 w3 nothing w4 w5 +3:cn=k,ou=b,dc=x@5 nothing w6 !3:cn=k,ou=b,dc=x@6 nothing
queue 4096; first; stay base:cn=k,ou=b,dc=x (sn=T) -; add ou=a,dc=x; person cn=k,ou=a,dc=x; hand 1 1; rename ou=a,dc=x ou=b; hand 1 2; replace cn=k,ou=b,dc=x sn=t; hand 1 1; delete cn=k,ou=b,dc=x; hand 1 20 => w1 s1@1 w2 w3 on-presents@1 w4 nothing w5 +3:cn=k,ou=b,dc=x@5 w6 !3:cn=k,ou=b,dc=x@6 nothing
queue 4096; first; add ou=a,dc=x; stay base:cn=k,ou=b,dc=x (sn=T) -; person cn=k,ou=a,dc=x; hand 1 1; rename ou=a,dc=x ou=b; replace cn=k,ou=b,dc=x sn=t; delete cn=k,ou=b,dc=x; hand 1 2; hand 1 20 => w1 w2 s1@2 w3 on-presents@2 w4 w5 w6 +3:cn=k,ou=b,dc=x@5 !3:cn=k,ou=b,dc=x@6 nothing
queue 4096; first; add ou=a,dc=x; person cn=k,ou=a,dc=x; stay base:cn=k,ou=b,dc=x (sn=T) -; rename ou=a,dc=x ou=b; hand 1 2; replace cn=k,ou=b,dc=x sn=t; hand 1 3; delete cn=k,ou=b,dc=x; hand 1 20 => w1 w2 w3 s1@3 w4 on-presents@3 nothing w5 +3:cn=k,ou=b,dc=x@5 nothing w6 !3:cn=k,ou=b,dc=x@6 nothing
queue 4096; first; add ou=a,dc=x; person cn=k,ou=a,dc=x; rename ou=a,dc=x ou=b; replace cn=k,ou=b,dc=x sn=t; delete cn=k,ou=b,dc=x; stay base:cn=k,ou=b,dc=x (sn=T) -; hand 1 20 => w1 w2 w3 w4 w5 w6 s1@6 on-presents@6 nothing
queue 0; stay base:cn=k,ou=b,dc=x (sn=T) -; first; hand 1 1; add ou=a,dc=x; hand 1 1; person cn=k,ou=a,dc=x; hand 1 1; rename ou=a,dc=x ou=b; hand 1 1; replace cn=k,ou=b,dc=x sn=t; hand 1 1; delete cn=k,ou=b,dc=x; hand 1 1; hand 1 20 => s1@0 w1 on-presents@0 w2 nothing w3 nothing w4 nothing w5 busy w6 none none
queue 1; stay base:cn=k,ou=b,dc=x (sn=T) -; first; hand 1 2; add ou=a,dc=x; hand 1 1; person cn=k,ou=a,dc=x; hand 1 1; rename ou=a,dc=x ou=b; hand 1 1; replace cn=k,ou=b,dc=x sn=t; hand 1 1; delete cn=k,ou=b,dc=x; hand 1 1; hand 1 20 => s1@0 w1 on-presents@0 nothing w2 nothing w3 nothing w4 nothing w5 +3:cn=k,ou=b,dc=x@5 w6 !3:cn=k,ou=b,dc=x@6 nothing
queue 2; first; stay base:cn=k,ou=b,dc=x (sn=T) -; add ou=a,dc=x; hand 1 9; person cn=k,ou=a,dc=x; hand 1 9; rename ou=a,dc=x ou=b; hand 1 1; replace cn=k,ou=b,dc=x sn=t; hand 1 9; delete cn=k,ou=b,dc=x; hand 1 9; hand 1 20 => w1 s1@1 w2 on-presents@1 nothing w3 nothing w4 nothing w5 +3:cn=k,ou=b,dc=x@5 nothing w6 !3:cn=k,ou=b,dc=x@6 nothing nothing
queue 2; first; add ou=a,dc=x; stay base:cn=k,ou=b,dc=x (sn=T) -; person cn=k,ou=a,dc=x; hand 1 9; rename ou=a,dc=x ou=b; replace cn=k,ou=b,dc=x sn=t; hand 1 1; delete cn=k,ou=b,dc=x; hand 1 1; hand 1 20 => w1 w2 s1@2 w3 on-presents@2 nothing w4 w5 +3:cn=k,ou=b,dc=x@5 w6 !3:cn=k,ou=b,dc=x@6 nothing
queue 3; first; add ou=a,dc=x; stay base:cn=k,ou=b,dc=x (sn=T) -; person cn=k,ou=a,dc=x; rename ou=a,dc=x ou=b; hand 1 9; replace cn=k,ou=b,dc=x sn=t; delete cn=k,ou=b,dc=x; hand 1 9; hand 1 20 => w1 w2 s1@2 w3 w4 on-presents@2 nothing w5 w6 +3:cn=k,ou=b,dc=x@5 !3:cn=k,ou=b,dc=x@6 nothing nothing
queue 1; first; add ou=a,dc=x; person cn=k,ou=a,dc=x; stay base:cn=k,ou=b,dc=x (sn=T) -; rename ou=a,dc=x ou=b; replace cn=k,ou=b,dc=x sn=t; delete cn=k,ou=b,dc=x; hand 1 9; hand 1 20 => w1 w2 w3 s1@3 w4 w5 w6 busy none
";

/// A replica takes commits, and no writes of clients; its searches are reported of commits as of
/// writes.
const COMMITS: &str = "\
^replica
# Commits, and what a refresh reports of the entries then.
# Entries are put, and one is dropped. The name above them need not be there.
commit 2:ou=b,dc=x 1:ou=a,dc=x; commit 3:ou=c,dc=x -2; once dc=x * ''; hand 1 9 => w1 w2 s1@2 +1:ou=a,dc=x +3:ou=c,dc=x presents@2
# What is dropped and put is there. What is dropped may be missing.
commit 1:ou=a,dc=x; commit 1:ou=b,dc=x -1 -5; once dc=x * ''; hand 1 9 => w1 w2 s1@2 +1:ou=b,dc=x presents@2
# Of two entries with one identity the last is there.
commit 1:ou=a,dc=x 1:ou=b,dc=x; once dc=x * ''; hand 1 9 => w1 s1@1 +1:ou=b,dc=x presents@1
# An empty commit is a write.
commit; once dc=x * ''; hand 1 9 => w1 s1@1 presents@1
# Two entries have one name. Then all is as before.
commit 2:ou=a,dc=x 7:ou=b,dc=x; commit 5:OU=B,dc=x 2:ou=c,dc=x; once dc=x * ''; hand 1 9 => w1 same5,7 s1@1 +2:ou=a,dc=x +7:ou=b,dc=x presents@1
# Two commits are taken together, or none of them.
commits 1:ou=a,dc=x & 2:ou=b,dc=x; commits 3:ou=c,dc=x & 4:ou=a,dc=x; once dc=x * ''; hand 1 9 => w2 same1,4 s1@2 +1:ou=a,dc=x +2:ou=b,dc=x presents@2
# Two entries change their names with each other.
commit 1:ou=a,dc=x 2:ou=b,dc=x; commit 1:ou=b,dc=x 2:ou=a,dc=x; once dc=x * ''; hand 1 9 => w1 w2 s1@2 +1:ou=b,dc=x +2:ou=a,dc=x presents@2
# A client writes nothing.
commit 1:ou=a,dc=x; add ou=b,dc=x; delete ou=a,dc=x; replace ou=a,dc=x description=d; rename ou=a,dc=x ou=z; once dc=x * ''; hand 1 9 => w1 c53 c53 c53 c53 s1@1 +1:ou=a,dc=x presents@1
# Commits beside a search that stays.
# One message for each identity that is changed, and the cookie of the commit with the last one. Where
# an equal entry is put, or nothing, there is no message.
commit 1:ou=a,dc=x; stay dc=x * ''; hand 1 9; commit 2:ou=b,dc=x 1:ou=z,dc=x; hand 1 9; commit 2:ou=b,dc=x; commit; hand 1 9; commit 2:ou=b,dc=x -1 -2; hand 1 9 => w1 s1@1 +1:ou=a,dc=x on-presents@1 nothing w2 ~1:ou=z,dc=x +2:ou=b,dc=x@2 nothing w3 w4 nothing w5 !1:ou=z,dc=x@5 nothing
# What enters the content is added, and what leaves it is deleted with the name that it had. A commit
# that is refused says nothing.
commit 1:ou=a,dc=x 2:ou=b,dc=x; stay dc=x (ou=z) ''; hand 1 9; commit 1:ou=z,dc=x; commit 2:ou=z,dc=x; commit 1:ou=a,dc=x 2:ou=z,dc=x; hand 1 9 => w1 s1@1 on-presents@1 nothing w2 same1,2 w3 +1:ou=z,dc=x@2 !1:ou=z,dc=x +2:ou=z,dc=x@3 nothing
# A commit that is too much for the queue.
queue 1; stay dc=x * ''; commit 1:ou=a,dc=x; hand 1 1; commit 2:ou=b,dc=x; hand 1 9 => s1@0 w1 on-presents@0 w2 busy
# An entry keeps its CSN in a commit, which has one of the replica's own.
commit 1:ou=a,dc=x; of 1; csn 1 => w1 20260101000000.000000Z#000007#002#000000 19700101000000.000000Z#000001#001#000000
";

/// Plain searches and comparisons.
const QUESTIONS: &str = "\
^root; first; add ou=a,dc=x; add ou=b,dc=x; add ou=c,ou=a,dc=x
# The base, the entries directly below it, and all of them, in the order of their identities
find 0 base:dc=x *; find 0 one:dc=x *; find 0 dc=x * => w1 w2 w3 w4 f1 dc=x f2 ou=a,dc=x ou=b,dc=x f4 dc=x ou=a,dc=x ou=b,dc=x ou=c,ou=a,dc=x
find 0 ou=a,dc=x (ou=*); find 0 OU=A,dc=x (ou=C); find 0 base:ou=a,dc=x (ou=b) => w1 w2 w3 w4 f2 ou=a,dc=x ou=c,ou=a,dc=x f1 ou=c,ou=a,dc=x f0
# A limit
find 4 dc=x *; find 3 dc=x *; find 1 one:dc=x *; find 1 base:dc=x * => w1 w2 w3 w4 f4 dc=x ou=a,dc=x ou=b,dc=x ou=c,ou=a,dc=x o3 dc=x ou=a,dc=x ou=b,dc=x o1 ou=a,dc=x f1 dc=x
# No entry has the name of the base.
find 0 ou=z,dc=x *; find 1 one:dc=y *; delete ou=b,dc=x; find 0 base:ou=b,dc=x * => w1 w2 w3 w4 c32 c32 w5 c32
# Nothing of it is a write.
find 0 dc=x *; compare dc=x o x; size => w1 w2 w3 w4 f4 dc=x ou=a,dc=x ou=b,dc=x ou=c,ou=a,dc=x c6 4/4/1
^root; first
# A value that the entry has, one that it has not, a type that it has not, one that there is not, and
# a name that no entry has
compare dc=x o x; compare dc=x o y; compare dc=x l x; compare dc=x foo x; compare dc=y o x => w1 c6 c5 c16 c17 c32
compare DC=X O x; compare dc=x objectClass DCOBJECT; compare dc=x objectClass person => w1 c6 c6 c5
# Types that no client gives, and values that are not of their type's syntax
compare dc=x entryUUID 00000000-0001-8000-8000-000000000001; compare dc=x entryCSN x; compare dc=x uidNumber x; compare dc=x objectClass x; compare dc=x l => w1 c17 c17 c21 c21 c21
# Codes in their order
compare dc=y foo x; compare dc=y uidNumber x; compare dc=x uidNumber 7 => w1 c32 c32 c16
";

#[test]
fn spellings_codes_and_snapshots(rt: HostRuntime) -> Result<(), Fail> {
    check_rows(&rt, rt.alloc(), OWN)
}

#[test]
fn refreshes(rt: HostRuntime) -> Result<(), Fail> {
    check_rows(&rt, rt.alloc(), REFRESHES)
}

#[test]
fn searches_that_stay(rt: HostRuntime) -> Result<(), Fail> {
    check_rows(&rt, rt.alloc(), LATER)
}

#[test]
fn writes_between_hand_outs(rt: HostRuntime) -> Result<(), Fail> {
    check_rows(&rt, rt.alloc(), SEQUENCES)
}

#[test]
fn plain_searches_and_comparisons(rt: HostRuntime) -> Result<(), Fail> {
    check_rows(&rt, rt.alloc(), QUESTIONS)
}

#[test]
fn commits_of_a_replica(rt: HostRuntime) -> Result<(), Fail> {
    check_rows(&rt, rt.alloc(), COMMITS)
}
