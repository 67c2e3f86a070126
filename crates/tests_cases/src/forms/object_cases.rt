//! Documents that denote cases, by hand.

/// Documents that denote cases, with the numbers of their hypotheses and components.
pub const CASES: &[(&str, usize, usize)] = table! {
    (r#"{"alpha":"0.025","hypotheses":["H1"],"p":["0.01"],"components":[{"weights":[1],"edges":[]}]}"#, 1, 1),
    (" {\"components\" : [{\"edges\":[], \"weights\":[0]}], \"alpha\":1, \"hypotheses\":[\"A\"], \"p\":[null]}\n", 1, 1),
    ("{\"alpha\":\"1/40\",\"components\":[{\"edges\":[{\"from\":\"H1\",\"to\":\"H2\",\"weight\":\"1-\\\\epsilon\"},{\"from\":\"H2\",\"to\":\"H1\",\"weight\":1}],\"share\":\"1\",\"weights\":[\"1/2\",\"1/2\"]}],\"hypotheses\":[\"H1\",\"H2\"],\"p\":[\"1/10000\",\"3/100\"]}\n",
     2, 1),
    (r#"{"alpha":"1/20","hypotheses":["A","B","C"],"p":[0,0,0],"components":[{"share":"2/5","weights":[1,0,0],"edges":[]},{"share":"3/5","weights":[0,1,0],"edges":[]}]}"#,
     3, 2),
    (r#"{"alpha":"1/20","hypotheses":["H1","H2"],"components":[{"weights":["1/2","1/2"],"edges":[]}],"stages":{"count":2,"spend":[["1/2","1/2"],{"steps":[{"from":"1/2","levels":["0.01","0.015"]}]}],"arrivals":[{"hypothesis":"H2","stage":1,"p":"0.02"}]}}"#,
     2, 1),
    (r#"{"alpha":2,"alpha":1,"hypotheses":["A"],"components":[{"weights":[1],"edges":[]}]}"#, 1, 1),
    // Escapes, keys that come again (the last counts), blanks, and numbers at their limits.
    (r#"{"\u0061lpha":"1/20","hypothese\u0073":["\u0041"],"components":[{"\u0077eights":["\u0031"],"edges":[]}]}"#, 1, 1),
    (r#"{"alpha":true,"alpha":1,"hypotheses":0,"hypotheses":["A"],"components":[{"weights":0,"weights":[1],"edges":[{"from":"B","from":"A","to":"B","to":"A","weight":{},"weight":0}]}]}"#,
     1, 1),
    ("\r\n\t { \"alpha\" :1 ,\n\
      \"hypotheses\":[ \"A\",\"B\" ], \"p\":[ null , null ], \"components\":[ { \"weights\":[ 0 , \"-0\" ], \"edges\":[ ] } ] }\t\r\n",
     2, 1),
    (r#"{"alpha":"+1e-4","hypotheses":["A","B"],"p":["1E-30",1],"components":[{"share":0,"weights":["1e-18",0],"edges":[]},{"share":"1","weights":[0,".5"],"edges":[{"from":"B","to":"A","weight":" ( 1 ) - \\epsilon ^ 4 "}]}]}"#,
     2, 2),
    (r#"{"alpha":1,"hypotheses":["A"],"components":[{"weights":[1],"edges":[]}],"stages":{"count":12,"spend":[{"steps":[{"from":1,"levels":[1,0,0,0,0,0,0,0,0,0,0,0]}]}],"arrivals":[{"hypothesis":"A","stage":12,"p":1}]}}"#,
     1, 1),
};

/// Documents that denote cases, and the JSON of these cases.
pub const WRITTEN: &[(&str, &str)] = &[
    (
        r#"{"alpha":"0.025","hypotheses":["H1","H2"],"p":["1e-4","3/100"],"components":[{"weights":["1/2","0.5"],"edges":[{"from":"H2","to":"H1","weight":1},{"from":"H1","to":"H2","weight":"1 - \\epsilon"},{"from":"H1","to":"H1","weight":0}]}]}"#,
        r#"{"alpha":"1/40","components":[{"edges":[{"from":"H1","to":"H2","weight":"1-\\epsilon"},{"from":"H2","to":"H1","weight":"1"}],"share":"1","weights":["1/2","1/2"]}],"hypotheses":["H1","H2"],"p":["1/10000","3/100"]}
"#,
    ),
    (
        r#"{"alpha":1,"hypotheses":["A"],"p":[null],"components":[{"weights":[0],"edges":[]}]}"#,
        r#"{"alpha":"1","components":[{"edges":[],"share":"1","weights":["0"]}],"hypotheses":["A"]}
"#,
    ),
    (
        r#"{"alpha":"1/20","hypotheses":["A","B"],"p":[0,1],"components":[{"share":"0.4","weights":[1,0],"edges":[]},{"share":"0.6","weights":[0,1],"edges":[]}]}"#,
        r#"{"alpha":"1/20","components":[{"edges":[],"share":"2/5","weights":["1","0"]},{"edges":[],"share":"3/5","weights":["0","1"]}],"hypotheses":["A","B"],"p":["0","1"]}
"#,
    ),
    (
        r#"{"alpha":"0.05","hypotheses":["H1","H2"],"components":[{"weights":["1/2","1/2"],"edges":[]}],"stages":{"count":2,"spend":[["1/2","1/2"],{"steps":[{"from":"1/2","levels":["0.01","0.015"]}]}],"arrivals":[{"hypothesis":"H2","stage":1,"p":"0.02"}]}}"#,
        r#"{"alpha":"1/20","components":[{"edges":[],"share":"1","weights":["1/2","1/2"]}],"hypotheses":["H1","H2"],"stages":{"arrivals":[{"hypothesis":"H2","p":"1/50","stage":1}],"count":2,"spend":[["1/2","1/2"],{"steps":[{"from":"1/2","levels":["1/100","3/200"]}]}]}}
"#,
    ),
];
