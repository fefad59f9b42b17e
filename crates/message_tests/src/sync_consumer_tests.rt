//! Searches, and what comes of each message. What is expected was worked out by hand.
use crate::rows::check_rows;
use std::test::Fail;

/// Searches that begin with nothing, and searches one after another.
const SEARCHES: &str = "\
new
once
done 0 c -> Stored c
has -> c
new
once
done 0 - -> Copied
has -> -
new
once
add 4 - o=x objectClass=organization|o=x|CSN -> Staged
done 0 c -> Stored +4 c
has -> 4 c
new
once
add 5 - ou=a,o=x objectClass=organizationalUnit|ou=a|CSN -> Staged
add 4 - o=x objectClass=organization|o=x|CSN -> Staged
doneDeletes 0 c -> Stored +4 +5 c
has -> 4 5 c
new
once
add 4 - o=x objectClass=organization|o=x|CSN -> Staged
delete 4 - o=x -> Staged
done 0 c -> Stored -4 c
has -> c
new
once
deletes - 9,8 -> Staged
done 0 c -> Stored -8 -9 c
has -> c
new
once
add 4 - o=x objectClass=organization|o=x|CSN -> Staged
newcookie c -> Staged
done 53 -> Over(53)
has -> -
new
once
refreshPresent c -> OutOfPlace(121)
done 0 c -> OutOfPlace(101)
has -> -
new
once
done 0 -> OutOfPlace(101)
has -> -
new
once
badDone -> BadValue
has -> -
new
stay
add 4 - o=x objectClass=organization|o=x|CSN -> Staged
refreshPresent c -> Stored +4 c
done 0 -> Over(0)
has -> 4 c
new
stay
reference -> Staged
otherInfo -> Staged
noInfo -> BadValue
has -> -
new
stay
otherSearch -> OutOfPlace(101)
reference -> OutOfPlace(115)
has -> -
new
stay
badInfo -> BadValue
unbind -> OutOfPlace(66)
has -> -
new
stay
unbind -> OutOfPlace(66)
has -> -
new
stay
done 53 -> Over(53)
done 53 -> OutOfPlace(101)
has -> -
new
stay
presentEnds -> Staged
presentEnds -> OutOfPlace(121)
has -> -
# Searches one after another, with what the earlier ones left
new
once
add 4 - o=x objectClass=organization|o=x|CSN -> Staged
add 5 - ou=a,o=x objectClass=organizationalUnit|ou=a|CSN -> Staged
add 6 - ou=b,o=x objectClass=organizationalUnit|ou=b|CSN -> Staged
done 0 c -> Stored +4 +5 +6 c
has -> 4 5 6 c
once
presents - 4,5 -> Staged
done 0 d -> Stored -6 d
has -> 4 5 d
once
present 4 - o=x -> Staged
add 6 - ou=b,o=x objectClass=organizationalUnit|ou=b|CSN -> Staged
done 0 - -> Copied +6 -5
has -> 4 6 d
once
presents - 4,9 -> PresentUnknown(9)
has -> 4 6 d
once
presents - 4 -> Staged
presentEnds -> Staged
add 6 - ou=b,o=x objectClass=organizationalUnit|ou=b|CSN -> Staged
done 0 e -> OutOfPlace(101)
has -> 4 6 d
once
presents - 4 -> Staged
presentEnds -> Staged
add 6 - ou=b,o=x objectClass=organizationalUnit|ou=b|CSN -> Staged
doneDeletes 0 e -> Stored +6 e
has -> 4 6 e
stay
deletes - 6 -> Staged
deleteGoesOn -> Staged
refreshDelete f -> Stored -6 f
add 5 - ou=a,o=x objectClass=organizationalUnit|ou=a|CSN -> Staged
newcookie g -> Stored +5 g
has -> 4 5 g
stay
refreshDelete -> Copied
delete 5 h ou=a,o=x -> Stored -5 h
deletes i 9 -> Stored -9 i
has -> 4 i
stay
refreshDelete -> Copied
present 4 - o=x entryUUID=x -> OutOfPlace(100)
has -> 4 i
stay
refreshDelete -> Copied
presents - 4 -> OutOfPlace(121)
has -> 4 i
stay
refreshDelete -> Copied
refreshDelete -> OutOfPlace(121)
has -> 4 i
stay
add 5 - ou=a,o=x objectClass=organizationalUnit|ou=a|CSN -> Staged
done 4096 -> Over(4096)
has -> 4 -
";

/// Entries, by what rejects them.
const ENTRIES: &str = "\
# Entries, each the first message of a search that persists
new
stay
add 4 - o=x objectClass=organization|o=x|CSN -> Staged
new
stay
uncontrolled o=x,, -> OutOfPlace(100)
new
stay
badState o=x,, -> BadValue
new
stay
add 4 - o=x,, entryUUID=00000000-0000-0000-0000-000000000005 -> UuidDiffers(4, 5)
new
stay
delete 4 - o=x,, entryUUID=00000000-0000-0000-0000-000000000005 -> UuidDiffers(4, 5)
new
stay
present 4 - o=x,, entryuuid=00000000-0000-0000-0000-000000000005 -> UuidDiffers(4, 5)
new
stay
present 4 - o=x,, entryUUID=00000000-0000-0000-0000-000000000004 -> PresentUnknown(4)
new
stay
delete 4 - o=x,, entryUUID=x|uidNumber=x -> Staged
new
stay
add 4 - ou=a,,b uidNumber=x -> BadEntry(34)
new
stay
add 4 - o=x uidNumber=x -> BadEntry(21)
new
stay
add 4 - o=x entryUUID=x -> BadEntry(21)
new
stay
add 4 - o=x entryUUID={00000000-0000-0000-0000-000000000004} -> BadEntry(21)
new
stay
modify 4 - o=x entryUUID=00000000-0000-0000-0000-000000000004|CSN -> Staged
new
stay
modify 4 - o=x -> BadEntry(65)
new
stay
modify 4 - o=x entryCSN=20260101000000Z -> BadEntry(65)
new
stay
modify 4 - o=x entryCSN -> BadEntry(65)
new
stay
modify 4 - o=x CSN|CSN -> BadEntry(65)
new
stay
modify 4 - o=x CSN|uid|oddType=x|objectClass=oddClass -> Staged
new
stay
modify 4 - o=x CSN|uidNumber=12;x -> BadEntry(21)
new
stay
modify 4 - o=x CSN|syncActive=TRUE|syncActive=maybe -> BadEntry(21)
new
stay
modify 4 - o=x CSN|cn;lang-de=x -> Staged
new
stay
modify 4 - cn=* CSN -> Staged
# An entry is refused after one that was staged: no part of the stage is put.
new
once
add 4 - o=x objectClass=organization|o=x|CSN -> Staged
add 5 - ou=a,o=x objectClass=organizationalUnit|ou=a|CSN -> Staged
done 0 c -> Stored +4 +5 c
has -> 4 5 c
once
add 6 - ou=b,o=x objectClass=organizationalUnit|ou=b|CSN -> Staged
add 7 - cn=j,o=x CSN|uidNumber=12;x -> BadEntry(21)
doneDeletes 0 d -> OutOfPlace(101)
has -> 4 5 c
stay
refreshDelete d -> Stored d
add 6 - ou=b,o=x objectClass=organizationalUnit|ou=b|CSN -> Staged
modify 5 e ou=a,o=x CSN|syncActive=maybe -> BadEntry(21)
has -> 4 5 d
stay
refreshDelete -> Copied
add 7 e ou=c,o=x -> BadEntry(65)
has -> 4 5 d
# With its name of 11 letters an entry weighs 65,536 at most.
new
stay
heavy 65525 -> Staged
new
stay
heavy 65526 -> BadEntry(11)
# What is known of an entry is kept.
new
once
add 4 - cn=j,o=x cn|SN=s|oddType=x|cn=j|CSN|objectClass=Person;oddClass|CN=k;l|entryUUID=00000000-0000-0000-0000-000000000004 -> Staged
done 0 c -> Stored +4 c
has -> 4 c
entry 4 -> cn=j,o=x true sn;s cn;j;k;l objectClass;Person
entry 5 -> none
# Entries get names that others have, or had.
new
once
add 4 - o=x objectClass=organization|o=x|CSN -> Staged
add 5 - ou=a,o=x objectClass=organizationalUnit|ou=a|CSN -> Staged
done 0 c -> Stored +4 +5 c
has -> 4 5 c
once
add 7 - OU=A,o=X CSN -> Staged
add 3 - ou=A,o=x CSN -> Staged
doneDeletes 0 d -> DuplicateName(3, 5)
has -> 4 5 c
stay
refreshDelete d -> Stored d
modify 5 - ou=b,o=x CSN -> Staged
add 6 e ou=a,o=x CSN -> Stored +5 +6 e
add 7 f ou=b,o=x CSN -> DuplicateName(5, 7)
has -> 4 5 6 e
stay
refreshDelete f -> Stored f
modify 5 - ou=a,o=x CSN -> Staged
modify 6 g ou=b,o=x CSN -> Stored +5 +6 g
has -> 4 5 6 g
# An entry that is modified keeps its name, which another gets once it is gone.
new
stay
add 4 - o=x CSN -> Staged
add 5 - ou=a,o=x CSN -> Staged
refreshDelete c -> Stored +4 +5 c
modify 5 d OU=A,o=X CSN -> Stored +5 d
add 6 e ou=a,o=x CSN -> DuplicateName(5, 6)
has -> 4 5 d
stay
refreshDelete e -> Stored e
modify 5 - ou=a,o=x CSN -> Staged
add 6 f ou=A,o=x CSN -> DuplicateName(5, 6)
has -> 4 5 e
stay
refreshDelete f -> Stored f
modify 5 g ou=a,o=x CSN -> Stored +5 g
delete 5 - ou=a,o=x -> Staged
add 6 h ou=a,o=x CSN -> Stored +6 -5 h
modify 6 i ou=b,o=x CSN -> Stored +6 i
add 7 j ou=a,o=x CSN -> Stored +7 j
has -> 4 6 7 j
# A stage is full.
new
once
stages 200000 -> Staged
add 0 - cn=000000 CSN -> Staged
add 200000 - cn=200000 CSN -> StageFull
has -> -
# One more entry than there may be is refused where the refresh ends.
new
once
stages 200000 -> Staged
briefly doneDeletes 0 c -> Stored
once
add 200000 - cn=200000 CSN -> Staged
doneDeletes 0 d -> StageFull
bounds -> 200000 false Some(199999)
";

/// What else is done with a consumer.
const CALLS: &str = "\
# Entries are listed.
new
bounds -> 0 true None
once
add 4 - o=x objectClass=organization|o=x|CSN -> Staged
add 5 - ou=a,o=x objectClass=organizationalUnit|ou=a|CSN -> Staged
done 0 c -> Stored +4 +5 c
has -> 4 5 c
list -> 4 5 
above 4 -> 5 
bounds -> 2 false Some(5)
# What is wanted is reported.
new
spec -> o=x Sub true
# A cut drops what is staged.
new
once
add 4 - o=x objectClass=organization|o=x|CSN -> Staged
running -> true
cut
running -> false
done 0 c -> OutOfPlace(101)
once
add 5 - ou=a,o=x objectClass=organizationalUnit|ou=a|CSN -> Staged
done 0 c -> Stored +5 c
has -> 5 c
# A cookie is lost.
new
once
add 4 - o=x objectClass=organization|o=x|CSN -> Staged
add 5 - ou=a,o=x objectClass=organizationalUnit|ou=a|CSN -> Staged
done 0 c -> Stored +4 +5 c
has -> 4 5 c
lose
has -> 4 5 -
# What is asked for
new
once
done 0 c1 -> Stored c1
has -> c1
request -> c1
# Another specification in the midst of a search: the entries stay, and the cookie, the search and what it staged go.
new
once
add 4 - o=x objectClass=organization|o=x|CSN -> Staged
add 5 - ou=a,o=x objectClass=organizationalUnit|ou=a|CSN -> Staged
done 0 c -> Stored +4 +5 c
has -> 4 5 c
stay
add 6 - ou=b,o=x objectClass=organizationalUnit|ou=b|CSN -> Staged
deletes - 4 -> Staged
respec
running -> false
has -> 4 5 -
refreshDelete d -> OutOfPlace(121)
has -> 4 5 -
request -> other
once
present 5 - ou=a,o=x -> Staged
add 7 - cn=j,ou=a,o=x CSN -> Staged
done 0 e -> Stored +7 -4 e
has -> 5 7 e
# A cookie is set: a text without a letter, one that is not of this directory, and one that is.
new
once
add 4 - o=x objectClass=organization|o=x|CSN -> Staged
add 5 - ou=a,o=x objectClass=organizationalUnit|ou=a|CSN -> Staged
done 0 c -> Stored +4 +5 c
has -> 4 5 c
cookie ''
has -> 4 5 
request -> ''
cookie odd
has -> 4 5 ?
request -> odd
cookie rid=001,csn=20260101000000.000000Z#000000#001#000000
has -> 4 5 rid=001,csn=20260101000000.000000Z#000000#001#000000
request -> long
";

/// Copies of a consumer.
const COPIES: &str = "\
# A copy goes on as the consumer does.
new
once
add 4 - o=x objectClass=organization|o=x|CSN -> Staged
add 5 - ou=a,o=x objectClass=organizationalUnit|ou=a|CSN -> Staged
done 0 c -> Stored +4 +5 c
has -> 4 5 c
once
add 6 - ou=b,o=x objectClass=organizationalUnit|ou=b|CSN -> Staged
deletes - 4 -> Staged
copy
swap
doneDeletes 0 d -> Stored +6 -4 d
has -> 5 6 d
swap
doneDeletes 0 d -> Stored +6 -4 d
has -> 5 6 d
new
once
add 4 - o=x objectClass=organization|o=x|CSN -> Staged
add 5 - ou=a,o=x objectClass=organizationalUnit|ou=a|CSN -> Staged
done 0 c -> Stored +4 +5 c
has -> 4 5 c
once
presents - 4 -> Staged
copy
swap
done 0 - -> Copied -5
has -> 4 c
swap
done 0 - -> Copied -5
has -> 4 c
new
once
add 4 - o=x objectClass=organization|o=x|CSN -> Staged
add 5 - ou=a,o=x objectClass=organizationalUnit|ou=a|CSN -> Staged
done 0 c -> Stored +4 +5 c
has -> 4 5 c
once
add 6 - ou=b,o=x objectClass=organizationalUnit|ou=b|CSN -> Staged
copy
swap
presents - 4,6 -> Staged
presents - 9 -> PresentUnknown(9)
has -> 4 5 c
swap
presents - 4,6 -> Staged
presents - 9 -> PresentUnknown(9)
has -> 4 5 c
new
once
add 4 - o=x objectClass=organization|o=x|CSN -> Staged
add 5 - ou=a,o=x objectClass=organizationalUnit|ou=a|CSN -> Staged
done 0 c -> Stored +4 +5 c
has -> 4 5 c
once
presentEnds -> Staged
copy
swap
presentEnds -> OutOfPlace(121)
has -> 4 5 c
swap
presentEnds -> OutOfPlace(121)
has -> 4 5 c
new
once
add 4 - o=x objectClass=organization|o=x|CSN -> Staged
add 5 - ou=a,o=x objectClass=organizationalUnit|ou=a|CSN -> Staged
done 0 c -> Stored +4 +5 c
has -> 4 5 c
stay
presents - 5 -> Staged
presentEnds -> Staged
copy
swap
refreshDelete d -> Stored -4 d
deletes e 9 -> Stored -9 e
has -> 5 e
swap
refreshDelete d -> Stored -4 d
deletes e 9 -> Stored -9 e
has -> 5 e
new
once
add 4 - o=x objectClass=organization|o=x|CSN -> Staged
add 5 - ou=a,o=x objectClass=organizationalUnit|ou=a|CSN -> Staged
done 0 c -> Stored +4 +5 c
has -> 4 5 c
stay
refreshDelete -> Copied
add 6 - ou=b,o=x objectClass=organizationalUnit|ou=b|CSN -> Staged
copy
swap
newcookie d -> Stored +6 d
done 0 -> Over(0)
has -> 4 5 6 d
swap
newcookie d -> Stored +6 d
done 0 -> Over(0)
has -> 4 5 6 d
new
once
add 4 - o=x objectClass=organization|o=x|CSN -> Staged
add 5 - ou=a,o=x objectClass=organizationalUnit|ou=a|CSN -> Staged
done 0 c -> Stored +4 +5 c
has -> 4 5 c
once
done 53 -> Over(53)
copy
swap
done 0 d -> OutOfPlace(101)
has -> 4 5 c
swap
done 0 d -> OutOfPlace(101)
has -> 4 5 c
new
once
add 4 - o=x objectClass=organization|o=x|CSN -> Staged
add 5 - ou=a,o=x objectClass=organizationalUnit|ou=a|CSN -> Staged
done 0 c -> Stored +4 +5 c
has -> 4 5 c
stay
copy
swap
done 4096 -> Over(4096)
has -> 4 5 -
swap
done 4096 -> Over(4096)
has -> 4 5 -
# What comes into effect in one of the two is not seen in the other.
new
once
add 4 - o=x objectClass=organization|o=x|CSN -> Staged
add 5 - ou=a,o=x objectClass=organizationalUnit|ou=a|CSN -> Staged
done 0 c -> Stored +4 +5 c
has -> 4 5 c
copy
once
add 6 - ou=b,o=x objectClass=organizationalUnit|ou=b|CSN -> Staged
deletes - 4 -> Staged
doneDeletes 0 d -> Stored +6 -4 d
has -> 5 6 d
swap
has -> 4 5 c
once
add 6 - ou=b,o=x objectClass=organizationalUnit|ou=b|CSN -> Staged
deletes - 4 -> Staged
doneDeletes 0 d -> Stored +6 -4 d
has -> 5 6 d
swap
has -> 5 6 d
";

#[test]
fn searches(rt: HostRuntime) -> Result<(), Fail> {
    check_rows(&rt, rt.alloc(), SEARCHES)
}

#[test]
fn entries(rt: HostRuntime) -> Result<(), Fail> {
    check_rows(&rt, rt.alloc(), ENTRIES)
}

#[test]
fn calls(rt: HostRuntime) -> Result<(), Fail> {
    check_rows(&rt, rt.alloc(), CALLS)
}

#[test]
fn copies(rt: HostRuntime) -> Result<(), Fail> {
    check_rows(&rt, rt.alloc(), COPIES)
}
