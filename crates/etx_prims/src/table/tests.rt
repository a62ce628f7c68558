use super::*;
use std::test::Fail;

/// All names but that of the control space, as their list has them.
const NAMES: [&str; 7] = [
    "number romannumeral string meaning fontname jobname expandafter noexpand csname input endinput the \
     topmark firstmark botmark splitfirstmark splitbotmark if ifcat ifnum ifdim ifodd ifvmode ifhmode \
     ifmmode ifinner ifvoid ifhbox ifvbox ifx ifeof iftrue iffalse ifcase else or fi unless ifdefined \
     ifcsname iffontchar unexpanded detokenize scantokens eTeXrevision topmarks firstmarks botmarks \
     splitfirstmarks splitbotmarks",
    "pretolerance tolerance linepenalty hyphenpenalty exhyphenpenalty clubpenalty widowpenalty \
     displaywidowpenalty brokenpenalty binoppenalty relpenalty predisplaypenalty postdisplaypenalty \
     interlinepenalty doublehyphendemerits finalhyphendemerits adjdemerits mag delimiterfactor looseness \
     time day month year showboxbreadth showboxdepth hbadness vbadness pausing tracingonline \
     tracingmacros tracingstats tracingparagraphs tracingpages tracingoutput tracinglostchars \
     tracingcommands tracingrestores tracingassigns tracinggroups tracingifs tracingscantokens \
     tracingnesting uchyph outputpenalty maxdeadcycles hangafter floatingpenalty globaldefs fam \
     escapechar defaulthyphenchar defaultskewchar endlinechar newlinechar language lefthyphenmin \
     righthyphenmin holdinginserts errorcontextlines",
    "parindent mathsurround lineskiplimit hsize vsize maxdepth splitmaxdepth boxmaxdepth hfuzz vfuzz \
     delimitershortfall nulldelimiterspace scriptspace predisplaysize displaywidth displayindent \
     overfullrule hangindent hoffset voffset emergencystretch",
    "lineskip baselineskip parskip abovedisplayskip belowdisplayskip abovedisplayshortskip \
     belowdisplayshortskip leftskip rightskip topskip splittopskip tabskip spaceskip xspaceskip \
     parfillskip thinmuskip medmuskip thickmuskip output everypar everymath everydisplay everyhbox \
     everyvbox everyjob everycr errhelp everyeof",
    "count dimen skip muskip toks catcode mathcode lccode uccode sfcode delcode fontdimen hyphenchar \
     skewchar textfont scriptfont scriptscriptfont font nullfont parshape wd ht dp prevdepth spacefactor \
     prevgraf deadcycles insertpenalties pagegoal pagetotal pagestretch pagefilstretch pagefillstretch \
     pagefilllstretch pageshrink pagedepth lastpenalty lastkern lastskip lastnodetype inputlineno badness \
     eTeXversion currentgrouplevel currentgrouptype currentiflevel currentiftype currentifbranch \
     interactionmode fontcharwd fontcharht fontchardp fontcharic parshapelength parshapeindent \
     parshapedimen gluestretch glueshrink gluestretchorder glueshrinkorder gluetomu mutoglue numexpr \
     dimexpr glueexpr muexpr",
    "def gdef edef xdef let futurelet chardef mathchardef countdef dimendef skipdef muskipdef toksdef \
     read readline setbox hyphenation patterns long outer global protected advance multiply divide \
     batchmode nonstopmode scrollmode errorstopmode",
    "relax par end endcsname begingroup endgroup aftergroup afterassignment ignorespaces uppercase \
     lowercase message errmessage show showthe showtokens openin closein openout closeout write special \
     immediate setlanguage box copy lastbox vsplit hbox vbox vtop unhbox unhcopy unvbox unvcopy moveleft \
     moveright raise lower shipout leaders cleaders xleaders hrule vrule hskip hfil hfill hss hfilneg \
     vskip vfil vfill vss vfilneg kern mkern mskip penalty unskip unkern unpenalty indent noindent char \
     accent discretionary - / mark marks insert vadjust halign noalign omit span cr crcr mathchar \
     delimiter radical mathaccent mathchoice displaystyle textstyle scriptstyle scriptscriptstyle mathord \
     mathop mathbin mathrel mathopen mathclose mathpunct mathinner underline overline limits nolimits \
     displaylimits vcenter over atop above overwithdelims atopwithdelims abovewithdelims left middle \
     right eqno leqno nonscript noboundary",
];

/// Names that real engines have and this one hasn't.
const ABSENT: &str =
    "dump valign beginL endL beginR endR TeXXeTstate predisplaydirection lastlinefit savinghyphcodes \
     showbox showlists showgroups showifs interlinepenalties clubpenalties widowpenalties \
     displaywidowpenalties splitdiscards pagediscards savingvdiscards pdfoutput directlua";

#[test]
fn finds_each_name_and_gives_it_back(rt: HostRuntime) -> Result<(), Fail> {
    let mut count = 0usize;
    for names in NAMES {
        for name in names.split_whitespace() {
            let primitive = lookup(name.as_bytes()).ok_or("no primitive has a name of the list")?;
            assert_eq!(rt; name_of(primitive), name.as_bytes(), "at {name}");
            count = count.saturating_add(1);
        }
    }
    let primitive = lookup(b" ").ok_or("no primitive has the name of the control space")?;
    assert_eq!(rt; name_of(primitive), b" ".as_slice());
    assert_eq!(rt; count.saturating_add(1), SORTED.len());
    Ok(())
}

#[test]
fn finds_no_other_name(rt: HostRuntime) {
    for name in ABSENT.split_whitespace() {
        assert!(rt; lookup(name.as_bytes()).is_none(), "at {name}");
    }
    for name in [
        b"".as_slice(),
        b"relaxx",
        b"rela",
        b"Relax",
        b"\\relax",
        b"  ",
        b"etexversion",
        b"zzz",
    ] {
        assert!(rt; lookup(name).is_none());
    }
}

#[test]
fn finds_the_command_of_a_name(rt: HostRuntime) {
    assert!(rt; matches!(lookup(b"par"), Some(Primitive::Par)));
    assert!(rt; matches!(lookup(b"vfilneg"), Some(Primitive::VSkip(SkipKind::FilNeg))));
    assert!(rt;
        matches!(
            lookup(b"ifcase"),
            Some(Primitive::Conditional(IfKind::Case))
        )
    );
    assert!(rt;
        matches!(
            lookup(b"-"),
            Some(Primitive::Discretionary(DiscretionaryKind::Hyphen))
        )
    );
}
