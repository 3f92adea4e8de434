//! Whole scripts, and the bytes that the program prints for them.
use crate::program::{Row, first_wrong};
use std::test::Fail;

pub const SCRIPTS_OF_ONE_CLIENT: &[Row] = &[
    // A put and a get.
    Row {
        nodes: 1,
        script: "nodes 1\nclient a\nput main k v\nget main k\n",
        status: 0,
        written: "a 1 ok\na 2 ok =v\nhistory 2\n1 a 1\n2 a 2\nversion main - writable 1 3a0511d85eacbbdd36deb83b3e4a9e8abe6bae92f89157155b49ae03a628c1ad\nend\n",
    },
    // No client.
    Row {
        nodes: 1,
        script: "nodes 1\n",
        status: 0,
        written: "history 0\nversion main - writable 0 e3b0c44298fc1c149afbf4c8996fb92427ae41e4649b934ca495991b7852b855\nend\n",
    },
    // Absent and empty values.
    Row {
        nodes: 1,
        script: "nodes 1\nclient a\nget main k\ndel main k\nput main k %\nget main k\n",
        status: 0,
        written: "a 1 ok -\na 2 ok\na 3 ok\na 4 ok =\nhistory 4\n1 a 1\n2 a 2\n3 a 3\n4 a 4\nversion main - writable 1 f98b493f1f2271f597900810893c6c01ce9ed84143bf989f17af66fb19470de5\nend\n",
    },
    // A root that splits over two nodes.
    Row {
        nodes: 2,
        script: "nodes 2\nclient s\nput main k1 v\nput main k2 v\nput main k3 v\nput main k4 v\nput main k5 v\nput main k6 v\nput main k7 v\nput main k8 v\nput main k9 v\n",
        status: 0,
        written: "s 1 ok\ns 2 ok\ns 3 ok\ns 4 ok\ns 5 ok\ns 6 ok\ns 7 ok\ns 8 ok\ns 9 ok\nhistory 9\n1 s 1\n2 s 2\n3 s 3\n4 s 4\n5 s 5\n6 s 6\n7 s 7\n8 s 8\n9 s 9\nversion main - writable 9 07e26d96ba613b1acd3aaba85ecbf22ea51e5ebc7bca891e6e2297a6ab30c31b\nend\n",
    },
    // A key of 33 letters.
    Row {
        nodes: 1,
        script: "nodes 1\nclient a\nput main xxxxxxxxxxxxxxxxxxxxxxxxxxxxxxxxx v\n",
        status: 2,
        written: "refused 3 10\n",
    },
    // A value of 65 letters.
    Row {
        nodes: 1,
        script: "nodes 1\nclient a\nput main k xxxxxxxxxxxxxxxxxxxxxxxxxxxxxxxxxxxxxxxxxxxxxxxxxxxxxxxxxxxxxxxxx\n",
        status: 2,
        written: "refused 3 12\n",
    },
    // A name of 17 letters.
    Row {
        nodes: 1,
        script: "nodes 1\nclient a\nsnapshot main xxxxxxxxxxxxxxxxx\n",
        status: 2,
        written: "refused 3 15\n",
    },
    // A key of 32 letters.
    Row {
        nodes: 1,
        script: "nodes 1\nclient a\nput main xxxxxxxxxxxxxxxxxxxxxxxxxxxxxxxx v\n",
        status: 0,
        written: "a 1 ok\nhistory 1\n1 a 1\nversion main - writable 1 a662baa89ab86a4a2f74994f0e6ab82c3dc833f01f7121a834de77a0928b9944\nend\n",
    },
    // A value of 64 letters.
    Row {
        nodes: 1,
        script: "nodes 1\nclient a\nput main k xxxxxxxxxxxxxxxxxxxxxxxxxxxxxxxxxxxxxxxxxxxxxxxxxxxxxxxxxxxxxxxx\n",
        status: 0,
        written: "a 1 ok\nhistory 1\n1 a 1\nversion main - writable 1 7029090e8f71f10cbb233ecc403d1c7cde69f18f08b177e821a6a3d08ce76c5c\nend\n",
    },
    // A name of 16 letters.
    Row {
        nodes: 1,
        script: "nodes 1\nclient a\nsnapshot main xxxxxxxxxxxxxxxx\n",
        status: 0,
        written: "a 1 made\nhistory 1\n1 a 1\nversion main - frozen 0 e3b0c44298fc1c149afbf4c8996fb92427ae41e4649b934ca495991b7852b855\nversion xxxxxxxxxxxxxxxx main writable 0 e3b0c44298fc1c149afbf4c8996fb92427ae41e4649b934ca495991b7852b855\nend\n",
    },
    // A transaction over two nodes.
    Row {
        nodes: 2,
        script: "nodes 2\nclient s\nput main k1 v\nput main k2 v\nput main k3 v\nput main k4 v\nput main k5 v\nput main k6 v\nput main k7 v\nput main k8 v\nput main k9 v\ntx main check k1 is v ; put k1 w ; put k5 w\ntx main check k1 is v ; put k5 x\n",
        status: 0,
        written: "s 1 ok\ns 2 ok\ns 3 ok\ns 4 ok\ns 5 ok\ns 6 ok\ns 7 ok\ns 8 ok\ns 9 ok\ns 10 ok\ns 11 unmet 1 =w\nhistory 11\n1 s 1\n2 s 2\n3 s 3\n4 s 4\n5 s 5\n6 s 6\n7 s 7\n8 s 8\n9 s 9\n10 s 10\n11 s 11\nversion main - writable 9 1559854d5d7fb8e3d2b527170818867830740ce283ff3746478467d5e2fd4eb9\nend\n",
    },
];

const CLIENTS_THAT_RACE: &[Row] = &[
    // Two clients that race on one leaf.
    Row {
        nodes: 1,
        script: "nodes 1\nclient a\ntx main get k ; put k a\nclient b\nput main k b\nschedule\nplan a\ngo b\ngo a\n",
        status: 0,
        written: "a 1 ok =b\nb 1 ok\nhistory 2\n1 b 1\n2 a 1\nversion main - writable 1 40449a5c585058750bb5995ba7e1c40bd1d89e68b989a2a2d4a35a2e4db4c55c\nend\n",
    },
    // A path that has moved.
    Row {
        nodes: 2,
        script: "nodes 2\nclient s\nput main k1 v\nput main k2 v\nput main k3 v\nput main k4 v\nput main k5 v\nput main k6 v\nput main k7 v\nput main k8 v\nput main k9 v\nclient a\nget main k9\nget main k9\nclient b\nput main k91 v\nput main k92 v\nput main k93 v\nput main k94 v\nschedule\nall s\ngo a\nall b\ngo a\n",
        status: 0,
        written: "s 1 ok\ns 2 ok\ns 3 ok\ns 4 ok\ns 5 ok\ns 6 ok\ns 7 ok\ns 8 ok\ns 9 ok\na 1 ok =v\na 2 ok =v\nb 1 ok\nb 2 ok\nb 3 ok\nb 4 ok\nhistory 15\n1 s 1\n2 s 2\n3 s 3\n4 s 4\n5 s 5\n6 s 6\n7 s 7\n8 s 8\n9 s 9\n10 a 1\n11 b 1\n12 b 2\n13 b 3\n14 b 4\n15 a 2\nversion main - writable 13 dd8ba2e8521b4fbc6a49b25f3c6b8d097d472f461b64610f4c1a6aa9d3baa8c1\nend\n",
    },
    // An entry that has changed.
    Row {
        nodes: 2,
        script: "nodes 2\nclient s\nput main k1 v\nput main k2 v\nput main k3 v\nput main k4 v\nput main k5 v\nput main k6 v\nput main k7 v\nput main k8 v\nput main k9 v\nclient a\nget main k\ntx main check k is v ; put k w\nclient b\nsnapshot main m\nschedule\nall s\ngo a\ngo b\ngo a\n",
        status: 0,
        written: "s 1 ok\ns 2 ok\ns 3 ok\ns 4 ok\ns 5 ok\ns 6 ok\ns 7 ok\ns 8 ok\ns 9 ok\na 1 ok -\na 2 frozen\nb 1 made\nhistory 12\n1 s 1\n2 s 2\n3 s 3\n4 s 4\n5 s 5\n6 s 6\n7 s 7\n8 s 8\n9 s 9\n10 a 1\n11 b 1\n12 a 2\nversion main - frozen 9 07e26d96ba613b1acd3aaba85ecbf22ea51e5ebc7bca891e6e2297a6ab30c31b\nversion m main writable 9 07e26d96ba613b1acd3aaba85ecbf22ea51e5ebc7bca891e6e2297a6ab30c31b\nend\n",
    },
    // Shared locks come back with a restart.
    Row {
        nodes: 2,
        script: "nodes 2\nclient s\nput main k1 v\nput main k2 v\nput main k3 v\nput main k4 v\nput main k5 v\nput main k6 v\nput main k7 v\nput main k8 v\nput main k9 v\nclient a\ntx main get k5 ; put k1 x\nclient b\nput main k5 y\nschedule\nall s\nplan a\nstep a\nhalt 0\nrestart 0\ngo b\ngo a\n",
        status: 0,
        written: "s 1 ok\ns 2 ok\ns 3 ok\ns 4 ok\ns 5 ok\ns 6 ok\ns 7 ok\ns 8 ok\ns 9 ok\na 1 ok =v\nb 1 busy lock 0 21504 1024 1.1.2\nhistory 10\n1 s 1\n2 s 2\n3 s 3\n4 s 4\n5 s 5\n6 s 6\n7 s 7\n8 s 8\n9 s 9\n10 a 1\nversion main - writable 9 666e3754004710280f6ccb3e2a7782318c6dd59ce18a0309482839c3c54f29d6\nend\n",
    },
];

const CRASHES_AND_RECOVERIES: &[Row] = &[
    // A client killed after its vote.
    Row {
        nodes: 2,
        script: "nodes 2\nrecoverers 1\nclient s\nput main k1 v\nput main k2 v\nput main k3 v\nput main k4 v\nput main k5 v\nput main k6 v\nput main k7 v\nput main k8 v\nput main k9 v\nclient a\ntx main put k1 x ; put k5 x\nclient b\nput main k5 y\nput main k5 z\nkill a 1 votes 1\nschedule\nall s\ngo a\ngo b\nrecover 1 a\ngo b\n",
        status: 0,
        written: "s 1 ok\ns 2 ok\ns 3 ok\ns 4 ok\ns 5 ok\ns 6 ok\ns 7 ok\ns 8 ok\ns 9 ok\na 1 died\nb 1 busy lock 0 21504 1024 1.1.2\nb 2 ok\nhistory 10\n1 s 1\n2 s 2\n3 s 3\n4 s 4\n5 s 5\n6 s 6\n7 s 7\n8 s 8\n9 s 9\n10 b 2\ndoubt a 1 aborted\npoint 1 met\nversion main - writable 9 8a7ea74d7408d7d5532d0533784fd1387356b3d98a389d1bfd83bf4301fe02e1\nend\n",
    },
    // A node that stops after.
    Row {
        nodes: 2,
        script: "nodes 2\nrecoverers 1\nclient s\nput main k1 v\nput main k2 v\nput main k3 v\nput main k4 v\nput main k5 v\nput main k6 v\nput main k7 v\nput main k8 v\nput main k9 v\nclient a\ntx main put k1 x ; put k5 x\nclient b\nget main k1\nget main k5\nstop 1 a 1 after\nschedule\nall s\ngo a\nrestart 1\nrecover 1 a\nall b\n",
        status: 0,
        written: "s 1 ok\ns 2 ok\ns 3 ok\ns 4 ok\ns 5 ok\ns 6 ok\ns 7 ok\ns 8 ok\ns 9 ok\na 1 doubt 1.1.2 1\nb 1 ok =x\nb 2 ok =x\nhistory 12\n1 s 1\n2 s 2\n3 s 3\n4 s 4\n5 s 5\n6 s 6\n7 s 7\n8 s 8\n9 s 9\n10 a 1\n11 b 1\n12 b 2\ndoubt a 1 committed\npoint 1 met\nversion main - writable 9 689a88ba4e40fdccc26207f69867373ea5dc93d6690a72773986c8fc21cf7e22\nend\n",
    },
    // A node that stops half.
    Row {
        nodes: 2,
        script: "nodes 2\nrecoverers 1\nclient s\nput main k1 v\nput main k2 v\nput main k3 v\nput main k4 v\nput main k5 v\nput main k6 v\nput main k7 v\nput main k8 v\nput main k9 v\nclient a\ntx main put k1 x ; put k5 x\nclient b\nget main k1\nget main k5\nstop 1 a 1 half\nschedule\nall s\ngo a\nrestart 1\nrecover 1 a\nall b\n",
        status: 0,
        written: "s 1 ok\ns 2 ok\ns 3 ok\ns 4 ok\ns 5 ok\ns 6 ok\ns 7 ok\ns 8 ok\ns 9 ok\na 1 doubt 1.1.2 1\nb 1 ok =v\nb 2 ok =v\nhistory 11\n1 s 1\n2 s 2\n3 s 3\n4 s 4\n5 s 5\n6 s 6\n7 s 7\n8 s 8\n9 s 9\n10 b 1\n11 b 2\ndoubt a 1 aborted\npoint 1 met\nversion main - writable 9 07e26d96ba613b1acd3aaba85ecbf22ea51e5ebc7bca891e6e2297a6ab30c31b\nend\n",
    },
    // A node that stops before.
    Row {
        nodes: 2,
        script: "nodes 2\nrecoverers 1\nclient s\nput main k1 v\nput main k2 v\nput main k3 v\nput main k4 v\nput main k5 v\nput main k6 v\nput main k7 v\nput main k8 v\nput main k9 v\nclient a\ntx main put k1 x ; put k5 x\nclient b\nget main k1\nget main k5\nstop 1 a 1 before\nschedule\nall s\ngo a\nrestart 1\nrecover 1 a\nall b\n",
        status: 0,
        written: "s 1 ok\ns 2 ok\ns 3 ok\ns 4 ok\ns 5 ok\ns 6 ok\ns 7 ok\ns 8 ok\ns 9 ok\na 1 doubt 1.1.2 1\nb 1 ok =v\nb 2 ok =v\nhistory 11\n1 s 1\n2 s 2\n3 s 3\n4 s 4\n5 s 5\n6 s 6\n7 s 7\n8 s 8\n9 s 9\n10 b 1\n11 b 2\ndoubt a 1 aborted\npoint 1 met\nversion main - writable 9 07e26d96ba613b1acd3aaba85ecbf22ea51e5ebc7bca891e6e2297a6ab30c31b\nend\n",
    },
    // Two recoveries race the first coordinator.
    Row {
        nodes: 2,
        script: "nodes 2\nrecoverers 2\nclient s\nput main k1 v\nput main k2 v\nput main k3 v\nput main k4 v\nput main k5 v\nput main k6 v\nput main k7 v\nput main k8 v\nput main k9 v\nclient a\ntx main put k1 x ; put k5 x\nschedule\nall s\nplan a\nstep a\nrstep 1 a\nrstep 2 a\nrstep 1 a\nrstep 1 a\nstep a\nrstep 2 a\nrstep 2 a\nrstep 2 a\nstep a\nrecover 1 a\nrecover 2 a\ngo a\n",
        status: 0,
        written: "s 1 ok\ns 2 ok\ns 3 ok\ns 4 ok\ns 5 ok\ns 6 ok\ns 7 ok\ns 8 ok\ns 9 ok\na 1 ok\nhistory 10\n1 s 1\n2 s 2\n3 s 3\n4 s 4\n5 s 5\n6 s 6\n7 s 7\n8 s 8\n9 s 9\n10 a 1\nversion main - writable 9 689a88ba4e40fdccc26207f69867373ea5dc93d6690a72773986c8fc21cf7e22\nend\n",
    },
];

const VERSIONS: &[Row] = &[
    // A snapshot and refusals.
    Row {
        nodes: 1,
        script: "nodes 1\nclient a\nput main k1 1\nsnapshot main m2\nscan main % % 10\nput m2 k1 2\nscan main % % 10\nput main k1 3\nget m2 k1\nscan m2 % % 10\nbranch m2 y\nget nope k1\nversions\n",
        status: 0,
        written: "a 1 ok\na 2 made\na 3 pairs 1 k1 =1\na 4 ok\na 5 pairs 1 k1 =1\na 6 frozen\na 7 ok =2\na 8 notfrozen\na 9 notfrozen\na 10 noversion\na 11 versions 2 main - frozen m2 main writable\nhistory 11\n1 a 1\n2 a 2\n3 a 3\n4 a 4\n5 a 5\n6 a 6\n7 a 7\n8 a 8\n9 a 9\n10 a 10\n11 a 11\nversion main - frozen 1 26084508d80d7480077996ccf0718835b88799a7c9ebda8f138b7a51e2778687\nversion m2 main writable 1 b88a50c78abc51b3445c55252c70a26044da02cb02e42b2ca2afc75648c1b32a\nend\n",
    },
    // Two branches.
    Row {
        nodes: 2,
        script: "nodes 2\nclient s\nput main k1 v\nput main k2 v\nput main k3 v\nput main k4 v\nput main k5 v\nput main k6 v\nput main k7 v\nput main k8 v\nput main k9 v\nsnapshot main m2\nbranch main x\nput m2 k5 a\nput x k5 b\nget m2 k5\nget x k5\nscan main k5 k6 10\n",
        status: 0,
        written: "s 1 ok\ns 2 ok\ns 3 ok\ns 4 ok\ns 5 ok\ns 6 ok\ns 7 ok\ns 8 ok\ns 9 ok\ns 10 made\ns 11 made\ns 12 ok\ns 13 ok\ns 14 ok =a\ns 15 ok =b\ns 16 pairs 1 k5 =v\nhistory 16\n1 s 1\n2 s 2\n3 s 3\n4 s 4\n5 s 5\n6 s 6\n7 s 7\n8 s 8\n9 s 9\n10 s 10\n11 s 11\n12 s 12\n13 s 13\n14 s 14\n15 s 15\n16 s 16\nversion main - frozen 9 07e26d96ba613b1acd3aaba85ecbf22ea51e5ebc7bca891e6e2297a6ab30c31b\nversion m2 main writable 9 eef7d223744c098a2a6c9bb85d41534a1065c85a27423132d38cc97b094465be\nversion x main writable 9 b57213a6132ab6b5b629b6af485a1c0633eb7a9e4814bee4c1ef161f24fc4733\nend\n",
    },
    // The most versions.
    Row {
        nodes: 1,
        script: "nodes 1\nclient a\nsnapshot main m\nbranch main x1\nbranch main x2\nbranch main x3\nbranch main x4\nbranch main x5\nbranch main x6\nbranch main x7\nbranch main x8\nbranch main x9\nbranch main x10\nbranch main x11\nbranch main x12\nbranch main x13\nbranch main x14\nbranch main x15\nbranch main x16\nbranch main x17\nbranch main x18\nbranch main x19\nbranch main x20\nbranch main x21\nbranch main x22\nbranch main x23\nbranch main x24\nbranch main x25\nbranch main x26\nbranch main x27\nbranch main x28\nbranch main x29\nbranch main x30\nbranch main x31\nbranch main x32\nbranch main x33\nbranch main x34\nbranch main x35\nbranch main x36\nbranch main x37\nbranch main x38\nbranch main x39\nbranch main x40\nbranch main x41\nbranch main x42\nbranch main x43\nbranch main x44\nbranch main x45\nbranch main x46\nbranch main x47\nbranch main x48\nbranch main x49\nbranch main x50\nbranch main x51\nbranch main x52\nbranch main x53\nbranch main x54\nbranch main x55\nbranch main x56\nbranch main x57\nbranch main x58\nbranch main x59\nbranch main x60\nbranch main x61\nbranch main x62\nbranch main y\nbranch main m\n",
        status: 0,
        written: "a 1 made\na 2 made\na 3 made\na 4 made\na 5 made\na 6 made\na 7 made\na 8 made\na 9 made\na 10 made\na 11 made\na 12 made\na 13 made\na 14 made\na 15 made\na 16 made\na 17 made\na 18 made\na 19 made\na 20 made\na 21 made\na 22 made\na 23 made\na 24 made\na 25 made\na 26 made\na 27 made\na 28 made\na 29 made\na 30 made\na 31 made\na 32 made\na 33 made\na 34 made\na 35 made\na 36 made\na 37 made\na 38 made\na 39 made\na 40 made\na 41 made\na 42 made\na 43 made\na 44 made\na 45 made\na 46 made\na 47 made\na 48 made\na 49 made\na 50 made\na 51 made\na 52 made\na 53 made\na 54 made\na 55 made\na 56 made\na 57 made\na 58 made\na 59 made\na 60 made\na 61 made\na 62 made\na 63 made\na 64 versionsfull\na 65 nametaken\nhistory 65\n1 a 1\n2 a 2\n3 a 3\n4 a 4\n5 a 5\n6 a 6\n7 a 7\n8 a 8\n9 a 9\n10 a 10\n11 a 11\n12 a 12\n13 a 13\n14 a 14\n15 a 15\n16 a 16\n17 a 17\n18 a 18\n19 a 19\n20 a 20\n21 a 21\n22 a 22\n23 a 23\n24 a 24\n25 a 25\n26 a 26\n27 a 27\n28 a 28\n29 a 29\n30 a 30\n31 a 31\n32 a 32\n33 a 33\n34 a 34\n35 a 35\n36 a 36\n37 a 37\n38 a 38\n39 a 39\n40 a 40\n41 a 41\n42 a 42\n43 a 43\n44 a 44\n45 a 45\n46 a 46\n47 a 47\n48 a 48\n49 a 49\n50 a 50\n51 a 51\n52 a 52\n53 a 53\n54 a 54\n55 a 55\n56 a 56\n57 a 57\n58 a 58\n59 a 59\n60 a 60\n61 a 61\n62 a 62\n63 a 63\n64 a 64\n65 a 65\nversion main - frozen 0 e3b0c44298fc1c149afbf4c8996fb92427ae41e4649b934ca495991b7852b855\nversion m main writable 0 e3b0c44298fc1c149afbf4c8996fb92427ae41e4649b934ca495991b7852b855\nversion x1 main writable 0 e3b0c44298fc1c149afbf4c8996fb92427ae41e4649b934ca495991b7852b855\nversion x2 main writable 0 e3b0c44298fc1c149afbf4c8996fb92427ae41e4649b934ca495991b7852b855\nversion x3 main writable 0 e3b0c44298fc1c149afbf4c8996fb92427ae41e4649b934ca495991b7852b855\nversion x4 main writable 0 e3b0c44298fc1c149afbf4c8996fb92427ae41e4649b934ca495991b7852b855\nversion x5 main writable 0 e3b0c44298fc1c149afbf4c8996fb92427ae41e4649b934ca495991b7852b855\nversion x6 main writable 0 e3b0c44298fc1c149afbf4c8996fb92427ae41e4649b934ca495991b7852b855\nversion x7 main writable 0 e3b0c44298fc1c149afbf4c8996fb92427ae41e4649b934ca495991b7852b855\nversion x8 main writable 0 e3b0c44298fc1c149afbf4c8996fb92427ae41e4649b934ca495991b7852b855\nversion x9 main writable 0 e3b0c44298fc1c149afbf4c8996fb92427ae41e4649b934ca495991b7852b855\nversion x10 main writable 0 e3b0c44298fc1c149afbf4c8996fb92427ae41e4649b934ca495991b7852b855\nversion x11 main writable 0 e3b0c44298fc1c149afbf4c8996fb92427ae41e4649b934ca495991b7852b855\nversion x12 main writable 0 e3b0c44298fc1c149afbf4c8996fb92427ae41e4649b934ca495991b7852b855\nversion x13 main writable 0 e3b0c44298fc1c149afbf4c8996fb92427ae41e4649b934ca495991b7852b855\nversion x14 main writable 0 e3b0c44298fc1c149afbf4c8996fb92427ae41e4649b934ca495991b7852b855\nversion x15 main writable 0 e3b0c44298fc1c149afbf4c8996fb92427ae41e4649b934ca495991b7852b855\nversion x16 main writable 0 e3b0c44298fc1c149afbf4c8996fb92427ae41e4649b934ca495991b7852b855\nversion x17 main writable 0 e3b0c44298fc1c149afbf4c8996fb92427ae41e4649b934ca495991b7852b855\nversion x18 main writable 0 e3b0c44298fc1c149afbf4c8996fb92427ae41e4649b934ca495991b7852b855\nversion x19 main writable 0 e3b0c44298fc1c149afbf4c8996fb92427ae41e4649b934ca495991b7852b855\nversion x20 main writable 0 e3b0c44298fc1c149afbf4c8996fb92427ae41e4649b934ca495991b7852b855\nversion x21 main writable 0 e3b0c44298fc1c149afbf4c8996fb92427ae41e4649b934ca495991b7852b855\nversion x22 main writable 0 e3b0c44298fc1c149afbf4c8996fb92427ae41e4649b934ca495991b7852b855\nversion x23 main writable 0 e3b0c44298fc1c149afbf4c8996fb92427ae41e4649b934ca495991b7852b855\nversion x24 main writable 0 e3b0c44298fc1c149afbf4c8996fb92427ae41e4649b934ca495991b7852b855\nversion x25 main writable 0 e3b0c44298fc1c149afbf4c8996fb92427ae41e4649b934ca495991b7852b855\nversion x26 main writable 0 e3b0c44298fc1c149afbf4c8996fb92427ae41e4649b934ca495991b7852b855\nversion x27 main writable 0 e3b0c44298fc1c149afbf4c8996fb92427ae41e4649b934ca495991b7852b855\nversion x28 main writable 0 e3b0c44298fc1c149afbf4c8996fb92427ae41e4649b934ca495991b7852b855\nversion x29 main writable 0 e3b0c44298fc1c149afbf4c8996fb92427ae41e4649b934ca495991b7852b855\nversion x30 main writable 0 e3b0c44298fc1c149afbf4c8996fb92427ae41e4649b934ca495991b7852b855\nversion x31 main writable 0 e3b0c44298fc1c149afbf4c8996fb92427ae41e4649b934ca495991b7852b855\nversion x32 main writable 0 e3b0c44298fc1c149afbf4c8996fb92427ae41e4649b934ca495991b7852b855\nversion x33 main writable 0 e3b0c44298fc1c149afbf4c8996fb92427ae41e4649b934ca495991b7852b855\nversion x34 main writable 0 e3b0c44298fc1c149afbf4c8996fb92427ae41e4649b934ca495991b7852b855\nversion x35 main writable 0 e3b0c44298fc1c149afbf4c8996fb92427ae41e4649b934ca495991b7852b855\nversion x36 main writable 0 e3b0c44298fc1c149afbf4c8996fb92427ae41e4649b934ca495991b7852b855\nversion x37 main writable 0 e3b0c44298fc1c149afbf4c8996fb92427ae41e4649b934ca495991b7852b855\nversion x38 main writable 0 e3b0c44298fc1c149afbf4c8996fb92427ae41e4649b934ca495991b7852b855\nversion x39 main writable 0 e3b0c44298fc1c149afbf4c8996fb92427ae41e4649b934ca495991b7852b855\nversion x40 main writable 0 e3b0c44298fc1c149afbf4c8996fb92427ae41e4649b934ca495991b7852b855\nversion x41 main writable 0 e3b0c44298fc1c149afbf4c8996fb92427ae41e4649b934ca495991b7852b855\nversion x42 main writable 0 e3b0c44298fc1c149afbf4c8996fb92427ae41e4649b934ca495991b7852b855\nversion x43 main writable 0 e3b0c44298fc1c149afbf4c8996fb92427ae41e4649b934ca495991b7852b855\nversion x44 main writable 0 e3b0c44298fc1c149afbf4c8996fb92427ae41e4649b934ca495991b7852b855\nversion x45 main writable 0 e3b0c44298fc1c149afbf4c8996fb92427ae41e4649b934ca495991b7852b855\nversion x46 main writable 0 e3b0c44298fc1c149afbf4c8996fb92427ae41e4649b934ca495991b7852b855\nversion x47 main writable 0 e3b0c44298fc1c149afbf4c8996fb92427ae41e4649b934ca495991b7852b855\nversion x48 main writable 0 e3b0c44298fc1c149afbf4c8996fb92427ae41e4649b934ca495991b7852b855\nversion x49 main writable 0 e3b0c44298fc1c149afbf4c8996fb92427ae41e4649b934ca495991b7852b855\nversion x50 main writable 0 e3b0c44298fc1c149afbf4c8996fb92427ae41e4649b934ca495991b7852b855\nversion x51 main writable 0 e3b0c44298fc1c149afbf4c8996fb92427ae41e4649b934ca495991b7852b855\nversion x52 main writable 0 e3b0c44298fc1c149afbf4c8996fb92427ae41e4649b934ca495991b7852b855\nversion x53 main writable 0 e3b0c44298fc1c149afbf4c8996fb92427ae41e4649b934ca495991b7852b855\nversion x54 main writable 0 e3b0c44298fc1c149afbf4c8996fb92427ae41e4649b934ca495991b7852b855\nversion x55 main writable 0 e3b0c44298fc1c149afbf4c8996fb92427ae41e4649b934ca495991b7852b855\nversion x56 main writable 0 e3b0c44298fc1c149afbf4c8996fb92427ae41e4649b934ca495991b7852b855\nversion x57 main writable 0 e3b0c44298fc1c149afbf4c8996fb92427ae41e4649b934ca495991b7852b855\nversion x58 main writable 0 e3b0c44298fc1c149afbf4c8996fb92427ae41e4649b934ca495991b7852b855\nversion x59 main writable 0 e3b0c44298fc1c149afbf4c8996fb92427ae41e4649b934ca495991b7852b855\nversion x60 main writable 0 e3b0c44298fc1c149afbf4c8996fb92427ae41e4649b934ca495991b7852b855\nversion x61 main writable 0 e3b0c44298fc1c149afbf4c8996fb92427ae41e4649b934ca495991b7852b855\nversion x62 main writable 0 e3b0c44298fc1c149afbf4c8996fb92427ae41e4649b934ca495991b7852b855\nend\n",
    },
];

#[test]
fn scripts_of_one_client_are_answered(rt: HostRuntime) -> Result<(), Fail> {
    let wrong = first_wrong(&rt, "replay", SCRIPTS_OF_ONE_CLIENT)?;
    assert!(rt; wrong == None, "the row {wrong:?}");
    Ok(())
}

#[test]
fn clients_that_race_try_again_or_are_busy(rt: HostRuntime) -> Result<(), Fail> {
    let wrong = first_wrong(&rt, "replay", CLIENTS_THAT_RACE)?;
    assert!(rt; wrong == None, "the row {wrong:?}");
    Ok(())
}

#[test]
fn doubts_are_decided_by_recovery(rt: HostRuntime) -> Result<(), Fail> {
    let wrong = first_wrong(&rt, "replay", CRASHES_AND_RECOVERIES)?;
    assert!(rt; wrong == None, "the row {wrong:?}");
    Ok(())
}

#[test]
fn versions_are_kept_apart(rt: HostRuntime) -> Result<(), Fail> {
    let wrong = first_wrong(&rt, "replay", VERSIONS)?;
    assert!(rt; wrong == None, "the row {wrong:?}");
    Ok(())
}
