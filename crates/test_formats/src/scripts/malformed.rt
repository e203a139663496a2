//! Lines and scripts that are outside the grammar. A line that begins with # is a comment.

/// Lines that are malformed.
pub const LINES: &str = "\
# bounds of names and numbers
open d0 1
devdesc d64
descriptors d0 0
poll e64
poll e256
poll e00
poll e07
poll e
poll e0 e0
Poll e0
submitin e0 65537
submitin e0 4294967296
submitin e0 00000000000000000001
submitin e0 +1
open d0 256 0
endpoint e0 i0 8 bulk-in
endpoint e0 i0 081 bulk-in
device k0 1 1 3 1 0aF
device k0 1 1 3 1 0g
# the clock, endpoints and waits
now 1
now : reap
submitout e0 0
submitout e0
submitout e0 00 : reap
dsubmitin e0 64
dsubmitin e0 64 1 1
dsubmitin e0 64 1 : reap
dsubmitin e0 65537 1
dsubmitin e0 max 64
dsubmitin e0 64 MAX
dsubmitin e0 64 1000000000000000001
dsubmitin e64 64 1
dsubmitin r0 64 1
dsubmitin
dsubmitout e0 00
dsubmitout e0 00 1 : reap
dsubmitout e0 0 1
dsubmitout e0 00 -
dsubmitout w0 00 1
dsubmit e0 64 1
pending e64
pending e0 0
cancel e0 e1
close e64
close e0 : reap
halt i0
halt w0
halt
halt e64
halt e0 e1
halt e0 : reap
poll e0 : reap
endpoint e0 i0 02 int
endpoint e0 i0 81 iso-in
wait e0 1000000000000000001
wait e0 18446744073709551615
wait e0 MAX
wait e0
wait e0 5 :
wait e0 5 : reap ;
wait e0 5 reap
wait e0 5 ; reap
wait e0 5: reap
wait e0 5 : : reap
wait e0 5 : reap : reap
xferin e0 65537 max
xferin e0 max 64
xferin e0 64
xferout e0 0102
xferout e0 010 5
# steps
! reap 4294967296
!
! reap 0 ;
! reap 0 ; ; reap 1
! ack k64 02
! ack k0 2
! ack k0
! ack k0 02 03
! fail k0 81 0
! fail k0 81 4096
! fail k0 81
! unplug k64
! unplug d0
! clock 1000000000000000001
! clock max
! clock
! timer k0
! timer 5
! reap ;
! reap :
! refuse k0 submit 0
! refuse k0 submit 4096
! refuse k0 submit
! refuse k0 close 5
! refuse k0 Submit 5
! : reap
# drivers, devices and interfaces
driver k0 256
driver k64 0
driver d0 0
driver k0
driver k0 0 0
driver 0 k0
driver k0 0 : reap
clone d0
clone d0 d1 d2
clone d64 d0
clone d1 d00
clone k0 k1
clone e1 e0
close
close k0
close d0 d1
close d64
close d0 : reap
active i0
active d0 1
speed e0
speed
setconfig d0
setconfig d0 256
setconfig i0 1
reset e0
reset d0 0
reset d0 : reap
detach d0
detach d0 256
detach i0 0
attach d0 i0
attach d0 0 0
detachclaim d0 0
detachclaim d0 256 i0
detachclaim d0 i0 0
detachclaim i0 0 i1
clone d0 i0
clone i0 d0
clone i0
clone i07 i0
close i64
close i0 i1
alt i0
alt i0 256
alt i0 -
alt d0 0
getalt d0
getalt i0 0
ifdesc d0
ifdesc
release d0
release i0 i1
Release i0
# control transfers
ctlin d0 standard device 00 0000 0000 65536 0
ctlin d0 standard device 00 0000 0000 0
ctlin d0 standard device 00 0000 0000 0 1000000000000000001
ctlin d0 standard device 00 0000 0000 0 0 0
ctlin d0 standard device 00 0000 0000 0 0 :
ctlin d0 standard device 00 0000 0000 0 0 : reap ;
ctlin d64 standard device 00 0000 0000 0 0
ctlin e0 standard device 00 0000 0000 0 0
ctlin f0 standard device 00 0000 0000 0 0
ctlin k0 standard device 00 0000 0000 0 0
ctlin d0 Standard device 00 0000 0000 0 0
ctlin d0 usb device 00 0000 0000 0 0
ctlin d0 device standard 00 0000 0000 0 0
ctlin d0 standard host 00 0000 0000 0 0
ctlin d0 standard device 0 0000 0000 0 0
ctlin d0 standard device 000 0000 0000 0 0
ctlin d0 standard device 00 000 0000 0 0
ctlin d0 standard device 00 0000 000g 0 0
ctlin d0 standard device 00 0000 0000 - 0
ctlout d0 standard device 00 0000 0000 0 0
ctlout d0 standard device 00 0000 0000 010 0
ctlout d0 standard device 00 0000 0000
fin d0 standard device 00 0000 0000 0 0
fin f64 d0 standard device 00 0000 0000 0 0
fin f0 f1 standard device 00 0000 0000 0 0
fin f0 d0 standard device 00 0000 0000 65536 0
fin f0 d0 standard device 00 0000 0000 0 0 : reap
fout f0 d0 standard device 00 0000 0000 - 0 : reap
fpoll f0 : reap
fpoll e0
close f64
close f07
close f0 : reap
fwait f0 5
fwait f0 :
fwait e0
fwait
getdesc d0 256 0 0000 0
getdesc d0 0 256 0000 0
getdesc d0 0 0 000 0
getdesc d0 0 0 0000
getdesc i0 0 0 0000 0
getdesc d0 0 0 0000 0 reap
langs d0
langs i0 0
langs d0 0 0
string d0 0 0409 0
string d0 256 0409 0
string d0 1 409 0
string d0 1 0409
string i0 1 0409 0
string d0 1 0409 0 ; reap
# readers
reader r64 e0 8
reader r0 e64 8
reader e0 r0 8
reader r0 e0 65537
reader r0 e0
reader r0 e0 8 : reap
inner r0 e0
inner e0
num r0
num r0 65537
num e0 1
timeout r0
timeout r0 1000000000000000001
timeout e0 5
cancel r64
halt r64
halt r00
halt r0 r1
halt r0 : reap
cancel i0
cancel r0 r1
close r07
close r0 : reap
consume r0
consume r0 65537
sconsume e0 1
isend r0 0
isend e0
endmsg
endmsg r0 : reap
clone r0 r1
read r0 0
read r0 65537
read r0 4294967296
read r0
read r64 5
read e0 5
read r0 5 :
read r0 5 : reap ;
read r0 5 reap
read r0 5 6
read r0 max
sread r0 0
sread r0 5 : : reap
pollread r0 0
pollread r0 5 : reap
pollsread r0 65537
pollsread r0 5 : reap
fill r0 :
fill r0 5
fill e0
sfill
pollfill r0 : reap
pollsfill r0 5
spollread r0 5
Read r0 5
# writers
writer w64 e0 8
writer w0 e64 8
writer e0 w0 8
writer r0 e0 8
reader w0 e0 8
writer w0 e0 65537
writer w0 e0
writer w0 e0 8 : reap
inner w0 e0
inner e64 w0
inner e0 w64
inner e0 e1
inner e0 r0 w0
num w0
num w0 65537
num w64 1
num w0 1 : reap
timeout w0
timeout w0 1000000000000000001
timeout w64 5
timeout i0 5
cancel w0
clone w0 w1
close w64
close w07
close w0 : reap
wsubmit
wsubmit r0
wsubmit w0 00
wend
wend e0
wend w0 : reap
write w0
write w0 0
write w0 000
write w0 0g
write w64 00
write r0 00
write e0 00
write w0 00 :
write w0 00 : reap ;
write w0 00 : : reap
write w0 00 reap
write w0 00 11
write w0 : reap
pollwrite w0
pollwrite w0 0
pollwrite r0 00
pollwrite w0 00 : reap
flush
flush r0
flush w64
flush w0 x
flush w0 00
flush w0 :
pollflush r0
pollflush w0 : reap
flushend
flushend r0
flushend w0 : reap ;
pollflushend w0 w1
pollflushend w0 : reap
submit w0
swrite w0 00
Write w0 00
# clients of messages
msg m0 e0
msg m64 e0 e1
msg m0 e64 e1
msg m0 e0 e64
msg m00 e0 e1
msg e0 e1 m0
msg m0 r0 e0
msg m0 e0 w0
msg m0 e0 e1 e2
msg m0 e0 e1 : reap
msg
mreq m0
mreq m0 0
mreq m0 0g
mreq m64 00
mreq w0 00
mreq m0 00 :
mreq m0 00 : reap ;
mreq m0 00 : : reap
mreq m0 00 reap
mreq m0 : reap
mresp
mresp m64
mresp r0
mresp m0 0
mresp m0 :
mresp m0 reap
mcount
mcount m64
mcount w0
mcount m0 0
mcount m0 : reap
close m64
close m07
close m0 m1
close m0 : reap
inner e0 m0
num m0 1
timeout m0 5
cancel m0
halt m0
clone m0 m1
Msg m0 e0 e1
# the tree of attributes and packets of udev
attr a b =1
attr /a/ b =1
attr //a b =1
attr /a/. b =1
attr /a/../b c =1
attr  b =1
attr /a b/c =1
attr /a b
attr /a b 1
attr /a b =1 =2
deny /a b 0
deny /a b 4096
child /a a/b
child /a
child /a b c
link /a b
entry a/b /c
entry /a b
root 0
root
uevent 4294967296 -
uevent 1
list 1
buses : reap
probe
probe a
probe /a /b
match
match /a vid
match /a vid 00f
match /a vid 0000 0000
match /a vidpid 0000
match /a class 0
match /a classsub 00
match /a classsubproto 00 00
match /a serial
match /a serial x
match /a serial ff
match /a Vid 0000
match /a x 00
hotplug 1
openpath i0 /a
openpath d64 /a
openpath d0 a
openpath d0";

/// Scripts, whose lines are parted by |, and their first malformed lines.
pub const SCRIPTS: &str = "\
# lines and their ends
script poll\te0| = malformed line 1
script poll e0\r\r| = malformed line 1
script poll\r e0| = malformed line 1
script \r\r| = malformed line 1
script poll e0||x = malformed line 3
script poll e0|   |x = malformed line 3
script # poll|  # \t poll\r\r|x = malformed line 3
script poll e0 # comment| = malformed line 1
script \t# comment| = malformed line 1
script \topen d0 1 6| = malformed line 1
script poll e0|poll e0|poll x0|poll x0| = malformed line 3
script device k0 1 1 3 1 -|device k0 1 2 3 1 - = malformed line 2
script device k0 1 1 3 1 -|device k1 1 1 3 1 - = malformed line 2
script poll e0|device k0 1 1 3 1 - = malformed line 2
script ! reap 0|device k0 1 1 3 1 - = malformed line 2
# drivers, devices and interfaces
script now|driver k0 0 = malformed line 2
script ! timer|driver k0 0 = malformed line 2
script driver k0 0|now|device k0 1 1 3 1 - = malformed line 3
script device k0 1 1 3 1 -|open d0 1 1|driver k0 0 = malformed line 3
script device k0 1 1 3 1 -|driver k0 0|device k0 1 2 3 1 - = malformed line 3
script driver k0 0|device k0 1 1 3 1 -|driver k0 0|device k1 1 1 3 1 - = malformed line 4
# control transfers
script langs d0 0 :  = malformed line 1
# the tree of attributes and packets of udev
script list|attr /a b =1 = malformed line 2
script ! timer|root 1 = malformed line 2";
