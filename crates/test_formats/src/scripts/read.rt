//! Lines and scripts that are read: each form and its bounds. A line that begins with # is a
//! comment.

/// Lines that are calls with no steps.
pub const CALLS: &str = "\
# bounds of names and numbers
devdesc d63
poll e63
submitin e0 65536
submitin e0 0000000000000065536
open d0 255 000
claim d63 255 i63
endpoint e0 i0 fF bulk-in
# devices, interfaces, endpoints and steps, each number another
open d6 7 8
devdesc d8
descriptors d9
claim d9 10 i11
endpoint e12 i13 8e bulk-in
submitin e15 16
poll e17
now
submitout e18 19
pending e20
xferout e28 29 max
cancel e30
close e31
clone d32 d33
close d34
active d35
speed d36
setconfig d37 38
detach d40 41
attach d42 43
detachclaim d44 45 i46
clone i47 i48
close i49
alt i50 51
getalt i52
ifdesc i53
release i54
halt e55
dsubmitin e56 57 58
dsubmitout e59 60 61
halt r62
# the clock, endpoints and waits
submitout e0 -
submitout e63 0aF0
dsubmitin e0 0 0
dsubmitin e63 65536 max
dsubmitin e1 0000000000000065536 1000000000000000000
dsubmitout e0 - 0
dsubmitout e63 0aF0 max
dsubmitout e1 - 0000000000000000001
pending e0
cancel e0
close e0
halt e63
endpoint e0 i0 02 bulk-out
endpoint e0 i0 81 int-in
endpoint e0 i0 02 int-out
wait e0 0
wait e0 max
wait e0 1000000000000000000
xferin e0 65536 max
xferout e0 - 0
# drivers, devices and interfaces
clone d1 d0
clone d63 d63
close d63
active d0
speed d63
setconfig d0 0
setconfig d63 255
detach d0 255
attach d63 000
detachclaim d63 255 i63
clone i1 i0
clone i63 i63
close i63
alt i0 000
alt i63 255
getalt i0
ifdesc i63
release i0
# control transfers
ctlin d0 standard device 00 0000 0000 0 0
ctlin i63 class interface fF fFfF FFff 65535 max
ctlout d63 vendor other 32 0000 0000 - 1000
fin f0 d0 vendor device 30 0000 0000 64 100
fin f63 i63 standard endpoint 30 0000 0000 065535 1000000000000000000
fout f0 d0 class other 30 0000 0000 0aF0 max
fpoll f0
close f63
fwait f0
getdesc d0 0 0 0000 0
langs d0 1000
string d0 1 0409 1000
string d63 255 0000 0
# readers
reader r0 e0 0
reader r63 e63 65536
inner e0 r63
num r0 0
num r0 065536
timeout r0 0
timeout r0 1000000000000000000
cancel r0
halt r0
halt r63
close r63
consume r0 65536
isend r0
endmsg r63
read r0 1
read r0 0065536
pollread r0 1
pollsread r63 65536
fill r0
sfill r63
pollfill r0
pollsfill r63
read r1 2
pollread r5 6
pollsread r7 8
fill r9
pollfill r12
pollsfill r13
consume r14 15
sconsume r16 0
reader r1 e2 3
inner e4 r5
num r6 65536
timeout r8 9
timeout r10 max
cancel r11
close r12
isend r13
endmsg r14
# writers
writer w0 e0 0
writer w63 e63 65536
inner e0 w63
num w0 0
num w0 065536
timeout w0 0
timeout w0 1000000000000000000
close w63
wsubmit w0
wend w63
pollflush w0
pollflushend w63
write w0 -
write w0 aB
pollwrite w0 -
pollwrite w63 0011
flush w0
flushend w0
write w1 02
pollwrite w6 070809
wsubmit w10
wend w11
flush w12
pollflush w14
flushend w15
pollflushend w17
writer w1 e2 3
inner e4 w5
num w6 65536
timeout w8 9
timeout w10 max
close w11
# clients of messages
msg m0 e0 e0
msg m63 e63 e62
mreq m0 -
mreq m63 0aF0
mresp m0
mcount m63
close m63
msg m1 e2 e3
mreq m4 05
mresp m6
mcount m7
close m8
# the tree of attributes and packets of udev
list
buses
probe /
probe /a/b
match /a
match /a vid 00fF
match /a vidpid 0000 ffff class 0a classsub 00 01 classsubproto 00 01 02 serial =x
match /a serial - serial 4142 vid 0000
hotplug
openpath d63 /a";

/// Lines of setup.
pub const SETUP: &str = "\
# bounds of names and numbers
device k0 1 1 3 1 -
# devices, interfaces, endpoints and steps, each number another
device k1 2 3 4 5 0aFf
driver k6 7
# drivers, devices and interfaces
driver k63 255
# the tree of attributes and packets of udev
attr / busnum =1
attr /sys/devices/usb1 busnum =
attr /sys/b version 20322e30300a
attr /sys/b x -
attr /a attr ==
deny /a x 1
deny /a x 4095
child /a 1-6:1.0
child /a ..
link /a driver ../b/
entry 1-6 /
root 4095
uevent 0 -
uevent 4294967295 =x";

/// Scripts, whose lines are parted by |, and what their items are.
pub const SCRIPTS: &str = "\
# lines and their ends
script device k0 1 6 3 1 1201000200000040aaaabbbb0001000000010902200001010080320904000002ff0000000705810240000007050202400000|open d0 1 6|claim d0 0 i0|endpoint e0 i0 81 bulk-in|submitin e0 64|poll e0|! pkt k0 81 010203|poll e0|! reap 0|poll e0| = setup, call, call, call, call, call, steps 1, call, steps 1, call
script = nothing
script poll e0|poll e0 = call, call
script   poll   e0  | = call
script poll e0\r| = call
script poll e0\r = call
script \r| = nothing
script # first|device k0 1 1 3 1 -||device k1 1 2 3 1 - = setup, setup
script device k0 1 1 3 1 -|device k1 1 2 3 1 - = setup, setup
# devices, interfaces, endpoints and steps, each number another
script ! pkt k18 93 14 ; reap 15 = steps 2
script wait e21 22 : reap = call 1
script xferin e23 24 25 : unplug k26 ; clock 27 = call 2
script reset d39 = call 1
# the clock, endpoints and waits
script wait e0 5 : reap = call 1
script wait e0 5 : reap ; reap 1 = call 2
script xferin e0 64 5 : pkt k0 81 - ; reap = call 2
script xferout e0 0102 5 : ack k0 02 ; reap = call 2
# steps
script ! pkt k0 81 01 ; pkt k0 81 0203 ; reap 1 = steps 3
script ! pkt k63 81 - = steps 1
script ! reap 4294967295 = steps 1
script ! ack k0 02 = steps 1
script ! ack k63 fF = steps 1
script ! fail k0 81 1 = steps 1
script ! fail k0 81 4095 = steps 1
script ! fail k0 81 0000000000000000032 = steps 1
script ! unplug k63 = steps 1
script ! clock 0 = steps 1
script ! clock 1000000000000000000 = steps 1
script ! timer = steps 1
script ! clock 5 ; timer ; timer = steps 3
script ! reap = steps 1
script ! reap ; reap 1 = steps 2
script ! reap 1 ; reap = steps 2
script ! refuse k0 submit 1 = steps 1
script ! refuse k63 submit 4095 = steps 1
script ! refuse k0 open 5 ; refuse k0 readdesc 5 ; refuse k0 getconfig 5 ; refuse k0 setconfig 5 ; refuse k0 reset 5 ; refuse k0 claim 5 ; refuse k0 detachclaim 5 = steps 7
script ! refuse k0 detach 5 ; refuse k0 attach 5 ; refuse k0 alt 5 ; refuse k0 halt 5 ; refuse k0 speed 5 = steps 5
# drivers, devices and interfaces
script driver k0 000|driver k0 0 = setup, setup
script driver k1 0|device k0 1 1 3 1 -||# now|driver k0 0 = setup, setup, setup
script driver k0 0|device k0 1 1 3 1 -|driver k0 0|device k1 1 2 3 1 -|now = setup, setup, setup, setup, call
script reset d0 = call 1
# control transfers
script ctlin d0 vendor endpoint 30 0102 0304 64 1000 : pkt k0 80 0102 = call 1
script ctlout i0 vendor device 32 0000 0000 01020304 1000 : ack k0 00 ; reap = call 2
script fwait f63 : pkt k0 80 - ; clock 5 ; timer = call 3
script getdesc d63 255 255 ffff max : fail k0 80 32 = call 1
script langs d63 max : pkt k0 80 04030904 = call 1
script string d0 001 0409 1000 : pkt k0 80 060341004200 = call 1
script ! timer|langs d0 0|fwait f0 = steps 1, call, call
# readers
script sread r63 5 : pkt k0 81 - ; reap = call 2
script ! timer|read r0 1|fill r0 = steps 1, call, call
script read r1 65536 : reap = call 1
script sread r63 4 : timer ; reap = call 2
script fill r10 : pkt k0 81 00 ; reap 0 ; timer = call 3
script sfill r11 : reap = call 1
# writers
script reader r0 e0 8|writer w0 e1 8|inner e0 r0|inner e1 w0 = call, call, call, call
script write w63 00 : pkt k0 81 - ; reap = call 2
script write w0 - : reap = call 1
script flush w63 : reap 65535 = call 1
script flushend w63 : timer ; reap = call 2
script ! timer|write w0 00|flush w0 = steps 1, call, call
script write w3 - : reap = call 1
script write w4 5aFf : timer ; reap 0 = call 2
script flush w13 : ack k0 01 ; reap 0 ; timer = call 3
script flushend w16 : reap = call 1
# clients of messages
script msg m0 e0 e1|mcount m0|close m0 = call, call, call
script mreq m63 00 : ack k0 02 ; reap = call 2
script mreq m0 - : reap = call 1
script mresp m63 : pkt k0 81 00000000 ; reap = call 2
script ! timer|mreq m0 00|mresp m0 = steps 1, call, call
script mreq m3 5aFf : timer ; reap 0 ; ack k0 02 = call 3
script mresp m4 : reap 65535 = call 1";
